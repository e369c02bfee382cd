//! The operations and the responses by their tags (RFC 4511 4.2 to 4.12), and the result codes (RFC 4511 4.1.9).

ghost use Rattle.std.specs.Prelude.{◌≡◌, ◌<◌};
ghost use Rattle.ber_elements.specs.write.Element.{IsTag};
ghost use Rattle.ldap_msg.specs.operations.Operations.{request_tag, operation_of, ending_tag, ending_of, response_tag, response_of};
ghost use Rattle.ldap_msg.specs.operations.ResultCodes.{code_number, code_from};

use crate::other_codes::OtherCode;

/// What a client may ask for.
#[derive(Clone, Copy, Debug)]
pub enum Operation {
    Bind,
    Unbind,
    Search,
    Modify,
    Add,
    Delete,
    Rename,
    Compare,
    Abandon,
    Extended,
}

impl Operation {
    /// The tag of the request.
    pub fn tag(self) -> u8
        ensures exact { result ≡ request_tag self }
        ensures tag { IsTag result }
    {
        match self {
            Operation::Bind => 0x60,
            Operation::Unbind => 0x42,
            Operation::Search => 0x63,
            Operation::Modify => 0x66,
            Operation::Add => 0x68,
            Operation::Delete => 0x4a,
            Operation::Rename => 0x6c,
            Operation::Compare => 0x6e,
            Operation::Abandon => 0x50,
            Operation::Extended => 0x77,
        }
    }

    /// The operation whose request has this tag.
    pub fn of(tag: u8) -> Option<Operation>
        ensures { result ≡ operation_of tag }
    {
        match tag {
            0x60 => Some(Operation::Bind),
            0x42 => Some(Operation::Unbind),
            0x63 => Some(Operation::Search),
            0x66 => Some(Operation::Modify),
            0x68 => Some(Operation::Add),
            0x4a => Some(Operation::Delete),
            0x6c => Some(Operation::Rename),
            0x6e => Some(Operation::Compare),
            0x50 => Some(Operation::Abandon),
            0x77 => Some(Operation::Extended),
            _ => None,
        }
    }
}

/// The responses whose content is a result alone.
#[derive(Clone, Copy, Debug)]
pub enum Ending {
    Bind,
    /// Of a search.
    Done,
    Modify,
    Add,
    Delete,
    Rename,
    Compare,
}

impl Ending {
    /// The tag of the response.
    pub fn tag(self) -> u8
        ensures exact { result ≡ ending_tag self }
        ensures tag { IsTag result }
    {
        match self {
            Ending::Bind => 0x61,
            Ending::Done => 0x65,
            Ending::Modify => 0x67,
            Ending::Add => 0x69,
            Ending::Delete => 0x6b,
            Ending::Rename => 0x6d,
            Ending::Compare => 0x6f,
        }
    }

    /// The response that has this tag, if its content is a result alone.
    pub fn of(tag: u8) -> Option<Ending>
        ensures { result ≡ ending_of tag }
    {
        match tag {
            0x61 => Some(Ending::Bind),
            0x65 => Some(Ending::Done),
            0x67 => Some(Ending::Modify),
            0x69 => Some(Ending::Add),
            0x6b => Some(Ending::Delete),
            0x6d => Some(Ending::Rename),
            0x6f => Some(Ending::Compare),
            _ => None,
        }
    }
}

/// What a server answers with.
#[derive(Clone, Copy, Debug)]
pub enum Response {
    /// One entry of a search.
    Entry,
    /// How an operation ended.
    Ended(Ending),
    /// How an extended operation ended, and what it answers.
    Extended,
}

impl Response {
    /// The tag of the response.
    pub fn tag(self) -> u8
        ensures exact { result ≡ response_tag self }
        ensures tag { IsTag result }
    {
        match self {
            Response::Entry => 0x64,
            Response::Ended(ending) => ending.tag(),
            Response::Extended => 0x78,
        }
    }

    /// The response that has this tag.
    pub fn of(tag: u8) -> Option<Response>
        ensures { result ≡ response_of tag }
    {
        match tag {
            0x64 => Some(Response::Entry),
            0x78 => Some(Response::Extended),
            _ => Some(Response::Ended(Ending::of(tag)?)),
        }
    }
}

/// How an operation ended.
#[derive(Clone, Copy, Debug)]
pub enum ResultCode {
    Success,
    ProtocolError,
    SizeLimitExceeded,
    CompareFalse,
    CompareTrue,
    AuthMethodNotSupported,
    AdminLimitExceeded,
    UnavailableCriticalExtension,
    NoSuchAttribute,
    UndefinedAttributeType,
    InappropriateMatching,
    ConstraintViolation,
    AttributeOrValueExists,
    InvalidAttributeSyntax,
    NoSuchObject,
    InvalidDnSyntax,
    InvalidCredentials,
    InsufficientAccessRights,
    UnwillingToPerform,
    NamingViolation,
    ObjectClassViolation,
    NotAllowedOnNonLeaf,
    NotAllowedOnRdn,
    EntryAlreadyExists,
    ObjectClassModsProhibited,
    /// Another code.
    Other(OtherCode),
}

impl ResultCode {
    /// The code's number.
    pub fn number(self) -> u8
        ensures exact { result ≡ code_number self }
        ensures range { result < 128 }
    {
        match self {
            ResultCode::Success => 0,
            ResultCode::ProtocolError => 2,
            ResultCode::SizeLimitExceeded => 4,
            ResultCode::CompareFalse => 5,
            ResultCode::CompareTrue => 6,
            ResultCode::AuthMethodNotSupported => 7,
            ResultCode::AdminLimitExceeded => 11,
            ResultCode::UnavailableCriticalExtension => 12,
            ResultCode::NoSuchAttribute => 16,
            ResultCode::UndefinedAttributeType => 17,
            ResultCode::InappropriateMatching => 18,
            ResultCode::ConstraintViolation => 19,
            ResultCode::AttributeOrValueExists => 20,
            ResultCode::InvalidAttributeSyntax => 21,
            ResultCode::NoSuchObject => 32,
            ResultCode::InvalidDnSyntax => 34,
            ResultCode::InvalidCredentials => 49,
            ResultCode::InsufficientAccessRights => 50,
            ResultCode::UnwillingToPerform => 53,
            ResultCode::NamingViolation => 64,
            ResultCode::ObjectClassViolation => 65,
            ResultCode::NotAllowedOnNonLeaf => 66,
            ResultCode::NotAllowedOnRdn => 67,
            ResultCode::EntryAlreadyExists => 68,
            ResultCode::ObjectClassModsProhibited => 69,
            ResultCode::Other(other) => other.number,
        }
    }

    /// The code of a number below 128.
    pub fn numbered(number: u8) -> ResultCode
        requires { number < 128 }
        ensures exact { result ≡ code_from number }
        ensures number { code_number result ≡ number }
    {
        match number {
            0 => ResultCode::Success,
            2 => ResultCode::ProtocolError,
            4 => ResultCode::SizeLimitExceeded,
            5 => ResultCode::CompareFalse,
            6 => ResultCode::CompareTrue,
            7 => ResultCode::AuthMethodNotSupported,
            11 => ResultCode::AdminLimitExceeded,
            12 => ResultCode::UnavailableCriticalExtension,
            16 => ResultCode::NoSuchAttribute,
            17 => ResultCode::UndefinedAttributeType,
            18 => ResultCode::InappropriateMatching,
            19 => ResultCode::ConstraintViolation,
            20 => ResultCode::AttributeOrValueExists,
            21 => ResultCode::InvalidAttributeSyntax,
            32 => ResultCode::NoSuchObject,
            34 => ResultCode::InvalidDnSyntax,
            49 => ResultCode::InvalidCredentials,
            50 => ResultCode::InsufficientAccessRights,
            53 => ResultCode::UnwillingToPerform,
            64 => ResultCode::NamingViolation,
            65 => ResultCode::ObjectClassViolation,
            66 => ResultCode::NotAllowedOnNonLeaf,
            67 => ResultCode::NotAllowedOnRdn,
            68 => ResultCode::EntryAlreadyExists,
            69 => ResultCode::ObjectClassModsProhibited,
            _ => ResultCode::Other(OtherCode { number }),
        }
    }
}
