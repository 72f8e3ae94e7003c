//! Random graphs: their files, and tokens for their sources. The numbers come from seeds, so a seed
//! gives the same graph each time.

use rand_core::utils::NextWord;
use rand_pcg::Pcg32;
use std::alloc::Global;
use std::test::Fail;

/// Where the random numbers come from.
#[derive(Drop)]
pub(crate) struct Dice {
    words: Pcg32,
}

impl Dice {
    /// The numbers of this seed.
    pub(crate) fn new(seed: u64) -> Dice {
        Dice {
            words: Pcg32::new(seed, 54),
        }
    }

    /// A number from the least to the most.
    pub(crate) fn roll(&mut self, least: u32, most: u32) -> u32 {
        let count = most.saturating_sub(least).saturating_add(1);
        let above = self.words.next_word().checked_rem(count).unwrap_or(0);
        least.saturating_add(above)
    }

    /// True once in so many times.
    pub(crate) fn is_one_in(&mut self, count: u32) -> bool {
        self.roll(1, count) == 1
    }

    /// A number from -100 to 100.
    fn small(&mut self) -> i32 {
        let above = i32::try_from(self.roll(0, 200)).unwrap_or(0);
        above.saturating_sub(100)
    }

    /// A token: mostly small, and sometimes near the ends of the range.
    fn token(&mut self) -> i32 {
        let scale = if self.is_one_in(16) { 21_000_000 } else { 1 };
        self.small().saturating_mul(scale)
    }

    fn weights(&mut self, alloc: Global, count: u32) -> Result<Vec<i32>, Fail> {
        let mut weights = Vec::new(alloc);
        for _ in 0..count {
            weights.push(self.small())?;
        }
        Ok(weights)
    }

    /// So many tokens.
    pub(crate) fn tokens(&mut self, alloc: Global, count: u32) -> Result<Vec<i32>, Fail> {
        let mut tokens = Vec::new(alloc);
        for _ in 0..count {
            tokens.push(self.token())?;
        }
        Ok(tokens)
    }

    /// The rates of so many phases, which move so many tokens together.
    fn rates(&mut self, alloc: Global, phases: u32, tokens: u32) -> Result<Vec<u32>, Fail> {
        let mut rates = vec![in alloc; 0_u32; phases as usize]?;
        for _ in 0..tokens {
            let phase = self.roll(1, phases).saturating_sub(1);
            if let Some(rate) = rates.get_mut(phase as usize) {
                *rate = rate.saturating_add(1);
            }
        }
        Ok(rates)
    }
}

/// An actor's phases, and how often it goes through them while the others go through theirs.
#[derive(Clone, Copy)]
struct Node {
    phases: u32,
    rounds: u32,
}

const NODE: Node = Node {
    phases: 1,
    rounds: 1,
};

/// A channel, from one actor to another.
#[derive(Clone, Copy)]
struct Edge {
    from: u32,
    to: u32,
}

/// A random graph: its actors are sources, then those between, and then sinks.
#[derive(Drop)]
pub(crate) struct Sketch {
    nodes: Vec<Node>,
    edges: Vec<Edge>,
    /// The first and the last actor between.
    first: u32,
    last: u32,
    /// The last sink.
    end: u32,
    /// The tokens that all channels have at first.
    initial: u32,
    pub(crate) text: String,
}

impl Sketch {
    fn new(alloc: Global, dice: &mut Dice) -> Sketch {
        let first = dice.roll(1, 2);
        let last = first.saturating_add(dice.roll(0, 2));
        Sketch {
            nodes: Vec::new(alloc),
            edges: Vec::new(alloc),
            first,
            last,
            end: last.saturating_add(dice.roll(1, 2)),
            initial: 0,
            text: String::new(alloc),
        }
    }

    fn node(&self, number: u32) -> Node {
        self.nodes.get(number as usize).copied().unwrap_or(NODE)
    }

    fn add_nodes(&mut self, dice: &mut Dice) -> Result<(), Fail> {
        for _ in 0..self.actors() {
            let several = dice.roll(2, 3);
            let phases = if dice.is_one_in(2) { several } else { 1 };
            let rounds = dice.roll(1, 3);
            self.nodes.push(Node { phases, rounds })?;
        }
        Ok(())
    }

    /// Adds a channel as the first or as the last one.
    fn join(&mut self, dice: &mut Dice, from: u32, to: u32) -> Result<(), Fail> {
        if dice.is_one_in(2) {
            self.edges.push(Edge { from, to })?;
        } else {
            self.edges.insert(0, Edge { from, to })?;
        }
        Ok(())
    }

    /// The actor between that a source or a sink is joined to. The first of these have the first and the
    /// last one, so that none is without inputs or outputs.
    fn neighbour(&self, dice: &mut Dice, number: u32) -> u32 {
        if number == 0 {
            self.first
        } else if number.checked_sub(self.last) == Some(1) {
            self.last
        } else {
            dice.roll(self.first, self.last)
        }
    }

    /// Joins a source or a sink to an actor between, and an actor between to the next one.
    fn join_node(&mut self, dice: &mut Dice, number: u32) -> Result<(), Fail> {
        let neighbour = self.neighbour(dice, number);
        if number < self.first {
            self.join(dice, number, neighbour)
        } else if number > self.last {
            self.join(dice, neighbour, number)
        } else if number < self.last {
            self.join(dice, number, number.saturating_add(1))
        } else {
            Ok(())
        }
    }

    /// Joins any two; often an actor between to itself.
    fn join_two(&mut self, dice: &mut Dice) -> Result<(), Fail> {
        let from = dice.roll(0, self.last);
        let to = dice.roll(self.first, self.end);
        let is_own = dice.is_one_in(2) && self.first <= from;
        self.join(dice, from, if is_own { from } else { to })
    }

    fn join_all(&mut self, dice: &mut Dice) -> Result<(), Fail> {
        for number in 0..self.actors() {
            self.join_node(dice, number)?;
        }
        for _ in 0..dice.roll(0, 3) {
            self.join_two(dice)?;
        }
        Ok(())
    }

    fn write_kernel(&mut self, alloc: Global, dice: &mut Dice, number: u32) -> Result<(), Fail> {
        if number < self.first {
            write!(self.text, "\"source\"")?;
        } else if number > self.last {
            write!(self.text, "\"sink\"")?;
        } else if dice.is_one_in(3) {
            write!(self.text, "\"copy\"")?;
        } else if dice.is_one_in(2) {
            write!(self.text, "\"sum\"")?;
        } else {
            let count = dice.roll(1, 4);
            let weights = dice.weights(alloc, count)?;
            let shift = dice.roll(0, 6);
            write!(self.text, "\"fir\", weights = {weights:?}, shift = {shift}")?;
        }
        Ok(())
    }

    fn write_nodes(&mut self, alloc: Global, dice: &mut Dice) -> Result<(), Fail> {
        write!(self.text, "actor = [\n")?;
        for number in 0..self.actors() {
            let phases = self.node(number).phases;
            write!(
                self.text,
                "  {{ name = \"a{number}\", phases = {phases}, kernel = "
            )?;
            self.write_kernel(alloc, dice, number)?;
            write!(self.text, " }},\n")?;
        }
        write!(self.text, "]\n")?;
        Ok(())
    }

    /// How many tokens go over the channel while its producer goes once through its phases, and while
    /// its consumer does.
    fn moved(&self, dice: &mut Dice, edge: Edge) -> (u32, u32) {
        let (from, to) = (self.node(edge.from).rounds, self.node(edge.to).rounds);
        let times = dice.roll(1, 3);
        if edge.from == edge.to {
            (times, times)
        } else {
            (to.saturating_mul(times), from.saturating_mul(times))
        }
    }

    /// Tokens for the beginning: a few of a channel forward, as many as are taken or more of one from an
    /// actor to itself, and mostly enough of one back.
    fn first_tokens(&self, dice: &mut Dice, edge: Edge, produced: u32) -> u32 {
        if edge.from < edge.to {
            dice.roll(0, 4).saturating_sub(2)
        } else if edge.from == edge.to && dice.is_one_in(2) {
            produced.saturating_add(dice.roll(0, 8))
        } else if edge.from == edge.to {
            produced
        } else {
            produced.saturating_mul(dice.roll(1, 6))
        }
    }

    /// Writes the rates at one end of a channel.
    fn write_rates(
        &mut self,
        alloc: Global,
        dice: &mut Dice,
        end: &str,
        phases: u32,
        tokens: u32,
    ) -> Result<(), Fail> {
        let rates = dice.rates(alloc, phases, tokens)?;
        write!(self.text, ", {end} = {rates:?}")?;
        Ok(())
    }

    fn write_initial(&mut self, alloc: Global, dice: &mut Dice, count: u32) -> Result<(), Fail> {
        let initial = dice.tokens(alloc, count)?;
        self.initial = self.initial.saturating_add(count);
        write!(self.text, ", initial = {initial:?}")?;
        Ok(())
    }

    /// Writes a capacity for these tokens and more, in two channels of three.
    fn write_capacity(&mut self, dice: &mut Dice, initial: u32) -> Result<(), Fail> {
        if !dice.is_one_in(3) {
            let capacity = initial.saturating_add(dice.roll(8, 64));
            write!(self.text, ", capacity = {capacity}")?;
        }
        Ok(())
    }

    fn write_edge(
        &mut self,
        alloc: Global,
        dice: &mut Dice,
        number: usize,
        edge: Edge,
    ) -> Result<(), Fail> {
        let (from, to) = (edge.from, edge.to);
        write!(
            self.text,
            "  {{ name = \"c{number}\", from = \"a{from}\", to = \"a{to}\""
        )?;
        let (producer, consumer) = (self.node(from), self.node(to));
        let (produced, consumed) = self.moved(dice, edge);
        self.write_rates(alloc, dice, "produce", producer.phases, produced)?;
        self.write_rates(alloc, dice, "consume", consumer.phases, consumed)?;
        let initial = self.first_tokens(dice, edge, produced);
        self.write_initial(alloc, dice, initial)?;
        self.write_capacity(dice, initial)?;
        write!(self.text, " }},\n")?;
        Ok(())
    }

    fn write_edges(&mut self, alloc: Global, dice: &mut Dice) -> Result<(), Fail> {
        write!(self.text, "channel = [\n")?;
        for number in 0..self.edges.len() {
            if let Some(edge) = self.edges.get(number).copied() {
                self.write_edge(alloc, dice, number, edge)?;
            }
        }
        write!(self.text, "]\n")?;
        Ok(())
    }

    /// Writes the number of cells, in one graph of four.
    fn write_cells(&mut self, dice: &mut Dice) -> Result<(), Fail> {
        if dice.is_one_in(4) {
            let cells = self.initial.saturating_add(dice.roll(8, 40));
            write!(self.text, "cells = {cells}\n")?;
        }
        Ok(())
    }

    /// How many actors it has.
    pub(crate) fn actors(&self) -> u32 {
        self.end.saturating_add(1)
    }

    /// Tokens for the sources: mostly enough.
    pub(crate) fn feeds(&self, alloc: Global, dice: &mut Dice) -> Result<Vec<Vec<i32>>, Fail> {
        let mut feeds = Vec::new(alloc);
        for number in 0..self.actors() {
            let count = if number < self.first {
                dice.roll(0, 400)
            } else {
                0
            };
            feeds.push(dice.tokens(alloc, count)?)?;
        }
        Ok(feeds)
    }
}

/// The next random graph.
pub(crate) fn sketch_of(alloc: Global, dice: &mut Dice) -> Result<Sketch, Fail> {
    let mut sketch = Sketch::new(alloc, dice);
    sketch.add_nodes(dice)?;
    sketch.join_all(dice)?;
    sketch.write_nodes(alloc, dice)?;
    sketch.write_edges(alloc, dice)?;
    sketch.write_cells(dice)?;
    Ok(sketch)
}
