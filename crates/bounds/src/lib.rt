// One iteration of the error bounds, in place: the new ones from the rows of |M|, then those of y, and a flag where nothing changed.
#![tactic(auto)]

ghost use Rattle.std.specs.Prelude.{◌≡◌, true, length};
ghost use Rattle.array.specs.Arrays.{Filled, NatsTo};
ghost use Rattle.bounds.specs.Steps.{e_at, Fitting, WeightsTo, Stored};

// What stays the same over the iterations, but for |M|.
#[derive(Clone, Copy)]
pub struct BoundTerms {
    pub width: [u64; 16],
    pub momentum: u64,
    pub n: usize,
    pub b: u32,
}

// Row by row: the new bounds of the commands, each the smaller of w and what |M| times q gives.
pub fn next_e(magnitudes: &[[u64; 16]; 16], t: BoundTerms, q: &[u64; 16], new: &mut [u64; 16])
    requires { (Fitting t × WeightsTo t.n magnitudes.now q.now) × (length new.old ≡ 16) }
    ensures { Filled 0 t.n (e_at magnitudes.now t q.now) new.new }
{
    for i in 0..t.n {
        let w = integer::ceil_div(weight::weight(&magnitudes[i], q, t.n), t.b) + 1;
        new[i] = t.width[i].min(w);
    }
}

// The new bounds in place of the old ones, and those of y. True only where nothing changed by that; false says nothing, and costs time alone.
pub fn store(t: BoundTerms, new: &[u64; 16], e: &mut [u64; 16], q: &mut [u64; 16]) -> bool
    requires { (Fitting t × NatsTo t.n new.now) × ((NatsTo t.n e.old × (length e.old ≡ 16)) × (length q.old ≡ 16)) }
    ensures { Stored t new.now e.old q.old e.new q.new result }
{
    let mut same = true;
    for i in 0..t.n {
        let x = new[i];
        let v = x + integer::ceil_div(t.momentum * (x + e[i]), t.b) + 1;
        same &= x == e[i];
        same &= v == q[i];
        e[i] = x;
        q[i] = v;
    }
    same
}
