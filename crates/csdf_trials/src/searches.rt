//! The search for the least capacities beside a plain one that runs a period for each capacity that it tries: over
//! random graphs, and over graphs whose channels stand in each other's way.

mod capacity_tests;
mod plain;
mod sketch;
