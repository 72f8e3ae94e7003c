//! How the libraries are called: what each file shows, one after the other.
#![tactic(auto)]

mod analysis;
mod files;
mod floor;
mod gate;
mod moves;
mod stream;

fn main(rt: HostRuntime) -> anyhow::Result<()> {
    analysis::show(&rt, rt.alloc())?;
    moves::show(&rt, rt.alloc())?;
    floor::show(&rt, rt.alloc())?;
    gate::show(&rt, rt.alloc())?;
    stream::show(&rt, rt.alloc())?;
    files::show(&rt)
}
