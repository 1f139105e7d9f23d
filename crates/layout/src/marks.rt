// Bytes that are read and labels that are written, at any place: past the end a word is 0, and no label is written.
ghost use Rattle.std.specs.Prelude.{◌≡◌, cond, ◌+◌, ◌<◌, ◌≤◌, ◌^◌, length, get_or, leb};
ghost use Rattle.wire.specs.Bytes.{part, le};

// What the label of a run's first byte has besides.
const BEGINS: u64 = 32;

pub fn byte_at(s: &[u8], at: usize) -> u8
    ensures { result ≡ get_or s.now at 0 }
{
    s.get(at).copied().unwrap_or(0)
}

pub fn word_at(s: &[u8], at: usize) -> usize
    ensures { (result ≡ cond (leb (at + 4) (length s.now)) (le (part 4 at s.now)) 0) × (result < 2 ^ 32) }
{
    if s.len() < 4 || s.len() - 4 < at {
        return 0;
    }
    wire::read_u32(s, at)
}

// Where the n places from `at` on end, as far as there are so many labels.
fn end_of(labels: &[u64], at: usize, n: usize) -> usize
    ensures { (result ≤ length labels.now) × (result ≤ at + n) }
{
    at.saturating_add(n).min(labels.len())
}

// From `at` on no byte has a label.
pub fn clear(labels: &mut [u64], at: usize) {
    if at < labels.len() {
        labels[at..].fill(0);
    }
}

// The n bytes from `at` on are a run with this label.
pub fn put(labels: &mut [u64], at: usize, n: usize, label: u64) {
    let end = end_of(labels, at, n);
    if at < end {
        labels[at..end].fill(label);
        labels[at] = label | BEGINS;
    }
}

// The n bytes from `at` on are a word and what follows it.
pub fn put_value(labels: &mut [u64], at: usize, n: usize, word: u64, rest: u64)
    requires { at ≤ 65540 }
{
    put(labels, at, n.min(4), word);
    if 4 < n {
        put(labels, at + 4, n - 4, rest);
    }
}

// How many of the n bytes from `at` on have no label, before the first that has one.
pub fn count_free(labels: &[u64], at: usize, n: usize) -> usize
    ensures { result ≤ n }
{
    let end = end_of(labels, at, n);
    if end <= at {
        return 0;
    }
    let free = &labels[at..end];
    free.iter()
        .position(|label| *label != 0)
        .unwrap_or(free.len())
}

// Whatever has no label from `at` on gets this one.
pub fn put_rest(labels: &mut [u64], at: usize, label: u64) {
    let mut begins = true;
    for i in at..labels.len() {
        let is_free = labels[i] == 0;
        if is_free {
            labels[i] = if begins { label | BEGINS } else { label };
        }
        begins = !is_free;
    }
}
