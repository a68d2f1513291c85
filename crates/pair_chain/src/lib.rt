// Entries chained by the place that each names: who asks for the entries of one place then looks at no others. Whether
// objections are chained by objector or by target is left to the caller.
#![tactic(auto)]

ghost use Rattle.std.specs.Prelude.{◌≡◌, ◌≤◌, ℕ, ◌<◌, length, get_or};
ghost use Rattle.pair_chain.specs.Linked.{Linked};

// The two lists of chains: `head` has for each place the last entry that names it, `next` for each entry the one before it that
// names the same place, each counted from 1, and 0 for none. No Options: they would take twice the room on the stack.
#[derive(Clone, Copy)]
pub struct Links<'a> {
    pub head: &'a [u16],
    pub next: &'a [u16],
}

// Chains the entries: head[x] is the last entry that names x, next[e] the last one before e that names the same place, each
// counted from 1, 0 for none.
pub fn chain(places: &[u32], head: &mut [u16], next: &mut [u16])
    requires room { (length places.now ≤ 4096) × (length places.now ≤ length next.old) × (length head.old ≤ 1024) }
    requires within { (e : ℕ) → e < length places.now → get_or places.now e 0 < length head.old }
    requires empty { (x : ℕ) → get_or head.old x 0 ≡ 0 }
    ensures { Linked places.now (length head.new) (length places.now)
        (λ x. get_or head.new x 0) (λ e. get_or next.new e 0) }
{
    // The entries before e are chained by the place that each names.
    for (e, &x) in places.iter().enumerate() {
        let x = x as usize;
        next[e] = head[x];
        head[x] = (e + 1) as u16;
    }
}
