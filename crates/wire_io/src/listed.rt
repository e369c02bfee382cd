//! Which calls of a form in memory are to fail.

ghost use Rattle.std.specs.Prelude.{◌≡◌};
ghost use Rattle.wire_io.specs.MemoryForms.{is_listed};

/// Whether the number of the call is listed.
pub(crate) fn is_listed(call: u64, calls: &[u64]) -> bool
    ensures exact { result ≡ is_listed call calls.now }
{
    calls.iter().any(|listed| call == *listed)
}
