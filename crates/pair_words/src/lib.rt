// Objections and their links in two rooms of words: what each word holds, read and stored part by part. Which entries are looked
// for along the links is left to the caller. No room is added for the links: the rooms of the two lists, 4,096 + 3,072 words of
// 32 bits, hold both, and so calls on lists keep within 32 KiB of stack.
//
//   first room    word e            objector + 1,024 · target + 1,048,576 · link of e among those against its target
//   second room   word e            low part, below 4,096: link of e among those by its objector, for e below 3,072
//                 word e - 3,072    high part: that link for e from 3,072 on
//                 word 1,024 + 2x   high part: where the chain against x begins; in word 1,025 + 2y: where that by y begins
//
// A link is the latest earlier entry, counted from 1, and 0 is none: a part of a word has no room for an Option. Beginnings stand
// in turn, since words 4,096 bytes apart that are read just after one of them was stored to can make a processor wait.
#![tactic(auto)]

ghost use Rattle.std.specs.Prelude.{◌≡◌, ◌<◌, ◌/◌, ◌≤◌, length, get_or};
ghost use Rattle.pair_words.specs.Words.{objectors_in, targets_in, link_against, link_by, begin_against, begin_by, with_pair};
ghost use Rattle.pair_words.specs.Words.{with_low, with_high, with_link_by, with_begins};

// The objector of an entry. It and the target's are not one function: each is named by its own definition, `objectors_in` and
// `targets_in`, which the contracts cite, and one function with the constant as a parameter would be no plainer.
#[tactic(auto, unfolding(crate::specs::Words::objectors_in))]
pub fn objector_of(pairs: &[u32], e: usize) -> usize
    requires { e < length pairs.now }
    ensures { result ≡ get_or (objectors_in pairs.now) e 0 }
{
    (pairs[e] % 1024) as usize
}

// The target of an entry.
#[tactic(auto, unfolding(crate::specs::Words::targets_in))]
pub fn target_of(pairs: &[u32], e: usize) -> usize
    requires { e < length pairs.now }
    ensures { result ≡ get_or (targets_in pairs.now) e 0 }
{
    (pairs[e] / 1024 % 1024) as usize
}

// The latest earlier entry against the target of this one, counted from 1, or 0.
#[tactic(auto, unfolding(crate::specs::Words::link_against))]
pub fn link_against(pairs: &[u32], e: usize) -> usize
    requires { e < length pairs.now }
    ensures { result ≡ link_against pairs.now e }
{
    (pairs[e] / 1048576) as usize
}

// The high part of a word of links.
fn high_in(word: u32) -> usize
    ensures { (result ≡ word / 4096) × (result < 1048576) }
{
    (word / 4096) as usize
}

// The latest earlier entry by the objector of this one, counted from 1, or 0. Entries from 3,072 on are asked for first: so
// the search for an equal objection while a text is mended has no jump across two lines of 32 bytes, which some processors read
// slowly (docs/DESIGN-PASS.md, Speed).
#[tactic(auto, unfolding(crate::specs::Words::link_by, crate::specs::Words::low, crate::specs::Words::high))]
pub fn link_by(links: &[u32], e: usize) -> usize
    requires { (e < 4096) × (3072 ≤ length links.now) }
    ensures { result ≡ link_by links.now e }
{
    if e >= 3072 {
        return high_in(links[e - 3072]);
    }
    (links[e] % 4096) as usize
}

// The latest entry against a target, counted from 1, or 0. It and the one below are not one function: each is named by its own
// definition, which its contract cites, and one function with the constant as a parameter would be no plainer.
#[tactic(auto, unfolding(crate::specs::Words::begin_against, crate::specs::Words::high))]
pub fn begin_against(links: &[u32], x: usize) -> usize
    requires { (x < 1024) × (3072 ≤ length links.now) }
    ensures { result ≡ begin_against links.now x }
{
    high_in(links[1024 + 2 * x])
}

// The latest entry by an objector, counted from 1, or 0.
#[tactic(auto, unfolding(crate::specs::Words::begin_by, crate::specs::Words::high))]
pub fn begin_by(links: &[u32], y: usize) -> usize
    requires { (y < 1024) × (3072 ≤ length links.now) }
    ensures { result ≡ begin_by links.now y }
{
    high_in(links[1025 + 2 * y])
}

// Puts an entry: its objector, its target and its link among those against the target.
#[tactic(auto, unfolding(crate::specs::Words::with_pair))]
pub fn put_pair(pairs: &mut [u32], e: usize, y: usize, x: usize, l: usize)
    requires { (e < length pairs.old) × (y < 1024) × (x < 1024) × (l < 4096) }
    ensures { pairs.new ≡ with_pair pairs.old e y x l }
{
    pairs[e] = (y + 1024 * x + 1048576 * l) as u32;
}

// Puts the low part of a word of links, and leaves the high one.
#[tactic(auto, unfolding(crate::specs::Words::with_low))]
fn put_low(links: &mut [u32], i: usize, v: usize)
    requires { (i < length links.old) × (v < 4096) }
    ensures { links.new ≡ with_low links.old i v }
{
    let high = high_in(links[i]);
    links[i] = (v + 4096 * high) as u32;
}

// Puts the high part of a word of links, and leaves the low one.
#[tactic(auto, unfolding(crate::specs::Words::with_high))]
fn put_high(links: &mut [u32], i: usize, v: usize)
    requires { (i < length links.old) × (v ≤ 4096) }
    ensures { links.new ≡ with_high links.old i v }
{
    links[i] = links[i] % 4096 + 4096 * v as u32;
}

// Puts the link of an entry among those by its objector.
#[tactic(auto, unfolding(crate::specs::Words::with_link_by))]
pub fn put_link_by(links: &mut [u32], e: usize, l: usize)
    requires { (e < 4096) × (l < 4096) × (3072 ≤ length links.old) }
    ensures { links.new ≡ with_link_by links.old e l }
{
    if e < 3072 {
        put_low(links, e, l);
        return;
    }
    put_high(links, e - 3072, l);
}

// Puts where the chains of an objector and of a target begin: an entry counted from 1, or 0.
#[tactic(auto, unfolding(crate::specs::Words::with_begins))]
pub fn put_begins(links: &mut [u32], y: usize, x: usize, b: usize)
    requires { (y < 1024) × (x < 1024) × (b ≤ 4096) × (3072 ≤ length links.old) }
    ensures { links.new ≡ with_begins links.old y x b }
{
    put_high(links, 1024 + 2 * x, b);
    put_high(links, 1025 + 2 * y, b);
}
