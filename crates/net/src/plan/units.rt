// The unit of a place.
ghost use Rattle.std.specs.Prelude.{◌≡◌};
ghost use Rattle.net.specs.Divisors.{IsGcd, unit_of, IsUnit};
ghost use Rattle.net.specs.Model.{net};

use super::Plan;

// The greatest common divisor, by Euclid.
fn gcd(a: u32, b: u32) -> u32
    ensures { IsGcd a b result }
{
    if b == 0 { a } else { gcd(b, a % b) }
}

impl Plan {
    // The greatest common divisor of what is taken and given at place p; 1 where nothing is.
    // An arc of 0 leaves the fold as it is, since gcd(a, 0) is a.
    pub fn unit(&self, p: u32) -> u32
        ensures value { result ≡ unit_of (net self.now) p }
        ensures unit { IsUnit (net self.now) p result }
    {
        let mut common = 0u32;
        for t in 0..self.moves {
            let taken = gcd(common, u32::from(self.take(t, p)));
            common = gcd(taken, u32::from(self.give(t, p)));
        }
        common.max(1)
    }
}
