//! Random graphs with circles and given capacities, as texts. A seed gives the same graph each time.

use rand_core::utils::NextWord;
use rand_pcg::Pcg32;
use std::alloc::Global;
use std::test::Fail;

/// Where the random numbers come from.
#[derive(Drop)]
struct Dice {
    words: Pcg32,
}

impl Dice {
    /// A number from the least to the most.
    fn roll(&mut self, least: u32, most: u32) -> u32 {
        let count = most.saturating_sub(least).saturating_add(1);
        let above = self.words.next_word().checked_rem(count).unwrap_or(0);
        least.saturating_add(above)
    }

    /// True once in so many times.
    fn is_one_in(&mut self, count: u32) -> bool {
        self.roll(1, count) == 1
    }

    /// The rates of so many phases, which move so many tokens together.
    fn rates(&mut self, alloc: Global, phases: u32, tokens: u32) -> Result<Vec<u32>, Fail> {
        let mut rates = vec![in alloc; 0_u32; phases as usize]?;
        for _ in 0..tokens {
            let phase = self.roll(1, phases).saturating_sub(1);
            if let Some(rate) = rates.get_mut(phase as usize) {
                *rate = rate.saturating_add(1);
            }
        }
        Ok(rates)
    }
}

/// An actor's phases, and how often it goes through them while the others go through theirs.
#[derive(Clone, Copy)]
struct Node {
    phases: u32,
    rounds: u32,
}

const NODE: Node = Node {
    phases: 1,
    rounds: 1,
};

/// A channel, from one actor to another.
#[derive(Clone, Copy)]
struct Edge {
    from: u32,
    to: u32,
}

/// A row of actors, from a source to a sink, with channels beside it: side by side, ahead, back, and
/// from an actor to itself.
#[derive(Drop)]
struct Sketch {
    dice: Dice,
    nodes: Vec<Node>,
    edges: Vec<Edge>,
    /// The number of the sink.
    last: u32,
    text: String,
}

impl Sketch {
    fn new(alloc: Global, seed: u64) -> Sketch {
        let mut dice = Dice {
            words: Pcg32::new(seed, 91),
        };
        let last = dice.roll(2, 6);
        Sketch {
            dice,
            nodes: Vec::new(alloc),
            edges: Vec::new(alloc),
            last,
            text: String::new(alloc),
        }
    }

    fn node(&self, number: u32) -> Node {
        self.nodes.get(number as usize).copied().unwrap_or(NODE)
    }

    fn add_nodes(&mut self) -> Result<(), Fail> {
        for _ in 0..=self.last {
            let phases = self.dice.roll(1, 3);
            let rounds = self.dice.roll(1, 3);
            self.nodes.push(Node { phases, rounds })?;
        }
        Ok(())
    }

    /// Adds a channel as the first or as the last one.
    fn join(&mut self, from: u32, to: u32) -> Result<(), Fail> {
        if self.dice.is_one_in(2) {
            self.edges.push(Edge { from, to })?;
        } else {
            self.edges.insert(0, Edge { from, to })?;
        }
        Ok(())
    }

    fn join_row(&mut self) -> Result<(), Fail> {
        for number in 0..self.last {
            self.join(number, number.saturating_add(1))?;
        }
        Ok(())
    }

    fn join_others(&mut self) -> Result<(), Fail> {
        for _ in 0..self.dice.roll(0, 5) {
            let from = self.dice.roll(0, self.last.saturating_sub(1));
            let to = self.dice.roll(1, self.last);
            self.join(from, to)?;
        }
        Ok(())
    }

    fn write_nodes(&mut self) -> Result<(), Fail> {
        write!(self.text, "actor = [\n")?;
        for number in 0..=self.last {
            let kernel = if number == 0 {
                "source"
            } else if number == self.last {
                "sink"
            } else {
                "sum"
            };
            let phases = self.node(number).phases;
            write!(
                self.text,
                "  {{ name = \"a{number}\", phases = {phases}, kernel = \"{kernel}\" }},\n"
            )?;
        }
        write!(self.text, "]\n")?;
        Ok(())
    }

    /// How many tokens go over the channel while its producer goes once through its phases, and while
    /// its consumer does.
    fn moved(&mut self, edge: Edge) -> (u32, u32) {
        let (from, to) = (self.node(edge.from).rounds, self.node(edge.to).rounds);
        let times = self.dice.roll(1, 2);
        if edge.from == edge.to {
            (times, times)
        } else {
            (to.saturating_mul(times), from.saturating_mul(times))
        }
    }

    /// How many tokens there are at first: a few of a channel forward, and mostly enough of any other.
    fn first_tokens(&mut self, edge: Edge, produced: u32) -> u32 {
        if edge.from < edge.to {
            self.dice.roll(0, 4).saturating_sub(2)
        } else {
            produced.saturating_mul(self.dice.roll(1, 4))
        }
    }

    /// Writes the rates at one end of a channel.
    fn write_rates(
        &mut self,
        alloc: Global,
        end: &str,
        phases: u32,
        tokens: u32,
    ) -> Result<(), Fail> {
        let rates = self.dice.rates(alloc, phases, tokens)?;
        write!(self.text, ", {end} = {rates:?}")?;
        Ok(())
    }

    fn write_initial(&mut self, alloc: Global, count: u32) -> Result<(), Fail> {
        let initial = vec![in alloc; 0_i32; count as usize]?;
        write!(self.text, ", initial = {initial:?}")?;
        Ok(())
    }

    /// Writes a capacity for these tokens and some more, in one channel of six.
    fn write_capacity(&mut self, initial: u32) -> Result<(), Fail> {
        if self.dice.is_one_in(6) {
            let capacity = initial.saturating_add(self.dice.roll(1, 12));
            write!(self.text, ", capacity = {capacity}")?;
        }
        Ok(())
    }

    fn write_edge(&mut self, alloc: Global, number: usize, edge: Edge) -> Result<(), Fail> {
        let (from, to) = (edge.from, edge.to);
        write!(
            self.text,
            "  {{ name = \"c{number}\", from = \"a{from}\", to = \"a{to}\""
        )?;
        let (producer, consumer) = (self.node(from), self.node(to));
        let (produced, consumed) = self.moved(edge);
        self.write_rates(alloc, "produce", producer.phases, produced)?;
        self.write_rates(alloc, "consume", consumer.phases, consumed)?;
        let initial = self.first_tokens(edge, produced);
        self.write_initial(alloc, initial)?;
        self.write_capacity(initial)?;
        write!(self.text, " }},\n")?;
        Ok(())
    }

    fn write_edges(&mut self, alloc: Global) -> Result<(), Fail> {
        write!(self.text, "channel = [\n")?;
        for number in 0..self.edges.len() {
            if let Some(edge) = self.edges.get(number).copied() {
                self.write_edge(alloc, number, edge)?;
            }
        }
        write!(self.text, "]\n")?;
        Ok(())
    }
}

/// The file of the random graph of this seed.
pub(crate) fn random_graph(alloc: Global, seed: u64) -> Result<String, Fail> {
    let mut sketch = Sketch::new(alloc, seed);
    sketch.add_nodes()?;
    sketch.join_row()?;
    sketch.join_others()?;
    sketch.write_nodes()?;
    sketch.write_edges(alloc)?;
    Ok(sketch.text)
}
