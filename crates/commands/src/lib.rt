// One iteration of the commands, in place: the new ones from the rows of M, then the new y, and a flag where nothing changed.
#![tactic(auto)]

ghost use Rattle.std.specs.Prelude.{◌≡◌, true, ◌^◌, ◌≤◌, ◌<◌, length, pos, nat_abs, ◌-ℤ◌};
ghost use Rattle.integer.specs.Round.{floor, clamp};
ghost use Rattle.gradient.specs.Demand.{In64};
ghost use Rattle.array.specs.Arrays.{Filled, WordsTo, RowsTo};
ghost use Rattle.commands.specs.Steps.{command_of, point_of, z_at, Fitting, SumsTo, StoredY, StoredZ};

use array::Limits;

// What stays the same over the iterations, but for M.
#[derive(Clone, Copy)]
pub struct CommandTerms {
    pub limits: Limits,
    pub linear: [i64; 16],
    pub momentum: u64,
    pub n: usize,
    pub b: u32,
}

// A new command, from the sum of its row of M y: this divided, less the linear term, clamped.
pub fn command(sum: i64, linear: i64, lower: i64, upper: i64, b: u32) -> i64
    requires { (In64 sum × (nat_abs linear ≤ 2 ^ 31)) × ((4 ≤ b) × (b ≤ 20)) }
    ensures { result ≡ clamp lower upper (floor sum (2 ^ b) -ℤ linear) }
{
    integer::clamp(lower, upper, integer::floor_div(sum, b) - linear)
}

impl CommandTerms {
    // Command i, from the sum of its row of M y.
    pub fn command_at(&self, i: usize, sum: i64) -> i64
        requires { (Fitting self.now × (i < self.now.n)) × In64 sum }
        ensures { result ≡ command_of self.now i sum }
    {
        command(
            sum,
            self.linear[i],
            self.limits.lower[i],
            self.limits.upper[i],
            self.b,
        )
    }
}

// Row by row: the new commands, which are M y less the linear term, clamped.
pub fn next_z(m: &[[i64; 16]; 16], t: CommandTerms, y: &[i64; 16], new: &mut [i64; 16])
    requires { (Fitting t × RowsTo t.n m.now) × ((WordsTo t.n y.now × SumsTo t.n m.now y.now) × (length new.old ≡ 16)) }
    ensures { Filled (pos 0) t.n (z_at m.now t y.now) new.new }
{
    for i in 0..t.n {
        new[i] = t.command_at(i, dot::dot(&m[i], y, 0, t.n));
    }
}

// A new y, from a new command and the old one.
fn point(new: i64, old: i64, momentum: u64, b: u32) -> i64
    requires { ((b ≤ 20) × (momentum < 2 ^ 20)) × ((nat_abs new ≤ 2 ^ 31) × (nat_abs old ≤ 2 ^ 31)) }
    ensures { result ≡ point_of b momentum new old }
{
    let f: i64 = 1 << b;
    let beta = momentum as i64;
    integer::floor_div((f + beta) * new, b) - integer::floor_div(beta * old, b)
}

// The new y in place of the old, from new commands and old ones; the terms by value would stand in the stack of a range solve once more. True only where nothing changed by that, and nothing had before; false says nothing, and costs time alone.
pub fn store_y(
    n: usize,
    b: u32,
    momentum: u64,
    new: &[i64; 16],
    old: &[i64; 16],
    y: &mut [i64; 16],
    before: bool,
) -> bool
    requires { (((n ≤ 16) × (b ≤ 20)) × ((momentum < 2 ^ 20) × WordsTo n new.now)) × (WordsTo n old.now × (WordsTo n y.old × (length y.old ≡ 16))) }
    ensures { StoredY n b momentum new.now old.now y.old y.new before result }
{
    let mut same = before;
    for i in 0..n {
        let v = point(new[i], old[i], momentum, b);
        same &= v == y[i];
        y[i] = v;
    }
    same
}

// The new commands in place of the old, with such a flag.
pub fn store_z(n: usize, new: &[i64; 16], z: &mut [i64; 16], before: bool) -> bool
    requires { (n ≤ 16) × (WordsTo n new.now × (WordsTo n z.old × (length z.old ≡ 16))) }
    ensures { StoredZ n new.now z.old z.new before result }
{
    let mut same = before;
    for i in 0..n {
        same &= new[i] == z[i];
        z[i] = new[i];
    }
    same
}
