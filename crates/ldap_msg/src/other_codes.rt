//! Result codes without a name here (RFC 4511 4.1.9).

ghost use Rattle.std.specs.Prelude.{◌≡◌, true};
ghost use Rattle.ldap_msg.specs.operations.OtherCodes.{is_other_code};

/// A result code without a name here, as busy is 51.
#[derive(Clone, Copy, Debug)]
pub struct OtherCode {
    /// Below 128, and the number of no code with a name here.
    pub number: u8,
    pub ghost other: { is_other_code number ≡ true },
}
