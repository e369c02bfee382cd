//! Laws over the definitions: each function's clause is the law, and its body does nothing.

ghost use Rattle.ber_elements.specs.Laws.{NoElementIsAFront, OneHeading, HeadersReadAgain, IntegersReadAgain, LengthsAreShortest, OneInteger};

/// No element is the front of another (X.690 8.1).
pub fn one_element()
    ensures { NoElementIsAFront }
{}

/// Octets have one heading.
pub fn one_heading()
    ensures { OneHeading }
{}

/// A written header is read again, whatever follows it.
pub fn headers_read_again()
    ensures { HeadersReadAgain }
{}

/// A written integer is the shortest form of itself, and is read again.
pub fn integers_read_again()
    ensures { IntegersReadAgain }
{}

/// No spelling of a length is shorter than the written one (X.690 10.1).
pub fn lengths_are_shortest()
    ensures { LengthsAreShortest }
{}

/// An integer has one content, so that what was read is written again (X.690 8.3.2).
pub fn one_integer()
    ensures { OneInteger }
{}
