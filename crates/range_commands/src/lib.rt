// The new commands of both ends, row by row, from the lowest y and the highest.
#![tactic(auto)]

ghost use Rattle.std.specs.Prelude.{◌≡◌, length};
ghost use Rattle.range_commands.specs.Steps.{EndsReady, NewEnds};

use commands::CommandTerms;
use range_sums::Ends;

// The lowest commands take the lowest sum of M y and the terms t, which hold the highest h; the highest commands take the highest sum and the terms u, which hold the lowest h.
#[inline(never)]
pub fn next_ends(
    m: &[[i64; 16]; 16],
    magnitudes: &[[u64; 16]; 16],
    t: CommandTerms,
    u: CommandTerms,
    y: &Ends<[i64; 16]>,
    new: &mut Ends<[i64; 16]>,
)
    requires { EndsReady m.now magnitudes.now t u y.now.low y.now.high × ((length new.old.low ≡ 16) × (length new.old.high ≡ 16)) }
    ensures { NewEnds m.now t u y.now.low y.now.high new.new.low new.new.high }
{
    let sums = range_sums::sums_of(&y.low, &y.high, t.n);
    let widths = range_sums::widths_of(&y.low, &y.high, t.n);
    for i in 0..t.n {
        let x = range_sums::row_ends(&m[i], &magnitudes[i], &sums, &widths, t.n);
        new.low[i] = t.command_at(i, x.low);
        new.high[i] = u.command_at(i, x.high);
    }
}
