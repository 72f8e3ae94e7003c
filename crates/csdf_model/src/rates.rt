//! How many tokens firings move.

ghost use Rattle.std.specs.Prelude.{◌≡◌, ◌≤◌, ◌*◌, ◌^◌, length, sum};
ghost use Rattle.csdf_model.specs.Graph.{channel_view};
ghost use Rattle.csdf_model.specs.Rates.{rate, total, produced, consumed, production, consumption};

use crate::parts::Channel;

/// The rate of firing number `firing`: the list has one rate for each phase and is repeated
/// cyclically. An empty list moves nothing.
pub fn rate(rates: &[u32], firing: u32) -> u32
    ensures { result ≡ rate rates.now firing }
{
    if rates.is_empty() {
        return 0;
    }
    // Most actors have one phase, and then nothing is divided.
    if rates.len() == 1 {
        return rates[0];
    }
    rates[firing as usize % rates.len()]
}

/// The sum of the rates.
fn sum_of(rates: &[u32]) -> u64
    requires { length rates.now ≤ 2 ^ 32 }
    ensures value { result ≡ sum rates.now }
    ensures within { result ≤ length rates.now * 4294967295 }
{
    let mut sum = 0;
    for rate in rates {
        sum += u64::from(*rate);
    }
    sum
}

/// The sum of the rates of the first `firings` firings, in time proportional to the phases.
pub fn total(rates: &[u32], firings: u32) -> u64
    ensures { result ≡ total rates.now firings }
{
    let firings = firings as usize;
    if firings <= rates.len() {
        return sum_of(&rates[..firings]);
    }
    if rates.is_empty() {
        return 0;
    }
    let cycles = (firings / rates.len()) as u64;
    sum_of(rates) * cycles + sum_of(&rates[..firings % rates.len()])
}

impl Channel {
    /// How many tokens the first `firings` firings of the producer put in.
    pub fn produced(&self, firings: u32) -> u64
        ensures { result ≡ produced (channel_view self.now) firings }
    {
        total(&self.produce, firings)
    }

    /// How many tokens the first `firings` firings of the consumer take out.
    pub fn consumed(&self, firings: u32) -> u64
        ensures { result ≡ consumed (channel_view self.now) firings }
    {
        total(&self.consume, firings)
    }

    /// How many tokens firing number `firing` of the producer puts in.
    pub fn production(&self, firing: u32) -> u32
        ensures { result ≡ production (channel_view self.now) firing }
    {
        rate(&self.produce, firing)
    }

    /// How many tokens firing number `firing` of the consumer takes out.
    pub fn consumption(&self, firing: u32) -> u32
        ensures { result ≡ consumption (channel_view self.now) firing }
    {
        rate(&self.consume, firing)
    }
}
