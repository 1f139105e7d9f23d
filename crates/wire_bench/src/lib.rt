// The leaves of crate `wire`, exported so that `bench/` can time them beside the same loops in Rust.
#![tactic(auto)]

ghost use Rattle.std.specs.Prelude.{◌≡◌, cond, length, replicate, leb};
ghost use Rattle.wire.specs.Bytes.{part, splice, all_zero, zeros};
ghost use Rattle.wire.specs.Utf8.{utf8};

#[unsafe(no_mangle)]
pub extern "C" fn wire_is_utf8(text: &[u8]) -> bool
    ensures { result ≡ utf8 text.now }
{
    wire::is_utf8(text)
}

#[unsafe(no_mangle)]
pub extern "C" fn wire_all_zero(s: &[u8]) -> bool
    ensures { result ≡ all_zero (part (length s.now) 0 s.now) }
{
    wire::all_zero(s, 0, s.len())
}

#[unsafe(no_mangle)]
pub extern "C" fn wire_count_zeros(s: &[u8]) -> usize
    ensures { result ≡ zeros (part (length s.now) 0 s.now) }
{
    wire::count_zeros(s, 0, s.len())
}

#[unsafe(no_mangle)]
pub extern "C" fn wire_fill(out: &mut [u8], value: u8)
    ensures { out.new ≡ splice (length out.old) 0 (replicate (length out.old) value) out.old }
{
    let n = out.len();
    wire::fill(out, 0, n, value);
}

// Where `s` does not fit, nothing is copied.
#[unsafe(no_mangle)]
pub extern "C" fn wire_copy(out: &mut [u8], s: &[u8])
    ensures { out.new ≡ cond (leb (length s.now) (length out.old)) (splice (length s.now) 0 s.now out.old) out.old }
{
    if s.len() <= out.len() {
        wire::copy(out, 0, s, 0, s.len());
    }
}
