// Keys in groups by their ids: each is linked to the nearest before it, or after it, of its group, so that a search for
// an id meets few others. The links are numbers of two bytes, an index plus one or 0 for none: an `Option` of them takes
// more room, in arrays of `MOST_RECORDS`.
#![tactic(auto)]

ghost use Rattle.std.specs.Prelude.{◌≡◌, [], ◌+◌, ◌-◌, ◌<◌, ◌≤◌, length, get_or, set};
ghost use Rattle.id_links.specs.Links.{group, Linked, Headed, LinkedAfter};
ghost use Rattle.xliff.specs.Parse.{most_records};

// The group of a key: the last eight bits of its id.
pub fn group_of(k: u32) -> usize
    ensures { (result ≡ group k) × (result < 256) }
{
    (k / 64 % 256) as usize
}

// The `n`th key linked to the last before it of its group, and now itself the last of it.
// The arrays are the callers' own: a struct of them here would hold their `&mut`, and be no plainer.
pub fn link(links: &mut [u16], heads: &mut [u16], n: usize, k: u32)
    requires { (n < length links.old) × (n < most_records) × (length heads.old ≡ 256) }
    ensures { (links.new ≡ set links.old n (get_or heads.old (group k) 0)) × (heads.new ≡ set heads.old (group k) (n + 1)) }
{
    let g = group_of(k);
    links[n] = heads[g];
    heads[g] = (n + 1) as u16;
}

// Links to what is before, and the last key of each group. Linear.
pub fn link_before(keys: &[u32], links: &mut [u16], heads: &mut [u16])
    requires { (length keys.now ≤ most_records) × (length links.old ≡ most_records) × (length heads.old ≡ 256) × Headed [] heads.old }
    ensures { Linked keys.now links.new × Headed keys.now heads.new
        × (length links.new ≡ most_records) × (length heads.new ≡ 256) }
{
    for i in 0..keys.len() {
        link(links, heads, i, keys[i]);
    }
}

// Links to what is after, counted from the end. Linear.
pub fn link_after(keys: &[u32], links: &mut [u16])
    requires { (length keys.now ≤ most_records) × (length links.old ≡ most_records) }
    ensures { LinkedAfter keys.now links.new × (length links.new ≡ most_records) }
{
    let mut heads = [0u16; 256];
    let n = keys.len();
    for i in (0..n).rev() {
        let g = group_of(keys[i]);
        links[i] = heads[g];
        heads[g] = (n - i) as u16;
    }
}
