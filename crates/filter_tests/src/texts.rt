//! Filters as text (RFC 4515): each form read, printed and read again, and texts that are refused.

use filter_text::{FilterFault, print_filter, read_filter};
use std::alloc::Global;
use std::test::Fail;

// What is printed of the filter that the text says.
fn printed(alloc: Global, text: &[u8]) -> Result<Vec<u8>, Fail> {
    let filter = read_filter(alloc, text)?;
    let mut out = Vec::new(alloc);
    print_filter(&filter, &mut out)?;
    Ok(out)
}

// A text, and what is printed of it.
static FORMS: [(&[u8], &[u8]); 15] = [
    (b"(cn=Babs Jensen)", b"(cn=Babs Jensen)"),
    (b"(cn=)", b"(cn=)"),
    (b"(2.5.4.3=a=b)", b"(2.5.4.3=a=b)"),
    (
        b"(o=Parens R Us \\28for all\\29)",
        b"(o=Parens R Us \\28for all\\29)",
    ),
    (b"(cn=\\2A\\5c\\00\\61)", b"(cn=\\2a\\5c\\00a)"),
    (b"(sn=Lu\xc4\x8di\xc4\x87)", b"(sn=Lu\\c4\\8di\\c4\\87)"),
    (b"(cn=*)", b"(cn=*)"),
    (b"(cn=a*)", b"(cn=a*)"),
    (b"(cn=*a)", b"(cn=*a)"),
    (b"(cn=a*b*c*d)", b"(cn=a*b*c*d)"),
    (b"(uid>=1)", b"(uid>=1)"),
    (b"(uid<=1)", b"(uid<=1)"),
    (b"(cn~=a)", b"(cn~=a)"),
    (b"(&)", b"(&)"),
    (
        b"(&(|(cn=a)(!(sn=*)))(!(&(o=x*)))(|))",
        b"(&(|(cn=a)(!(sn=*)))(!(&(o=x*)))(|))",
    ),
];

#[test]
fn each_form_of_filter_is_printed_and_read_again(rt: HostRuntime) -> Result<(), Fail> {
    for (text, want) in &FORMS {
        let once = printed(rt.alloc(), text)?;
        let again = printed(rt.alloc(), &once)?;
        assert_eq!(rt; (once.as_slice(), again.as_slice()), (*want, *want));
    }
    Ok(())
}

// Why a text is refused.
fn fault(alloc: Global, text: &[u8]) -> Option<FilterFault> {
    match read_filter(alloc, text) {
        Ok(_) => None,
        Err(fault) => Some(fault),
    }
}

// A text, and how many of its octets some filter's text begins with.
static REFUSED: [(&[u8], usize); 14] = [
    (b"", 0),
    (b"cn=a", 0),
    (b"(cn=a", 5),
    (b"(cn=a))", 6),
    (b"( cn=a)", 1),
    (b"(cn =a)", 3),
    (b"(cn;lang-de=a)", 3),
    (b"(cn:=a)", 3),
    (b"(cn=a**b)", 6),
    (b"(cn=a\\2)", 7),
    (b"(cn>=*)", 5),
    (b"(!)", 2),
    (b"(!(cn=a)(cn=b))", 8),
    (b"(&(cn=a) (cn=b))", 8),
];

#[test]
fn a_text_that_is_no_filter_is_refused_where_it_leaves_the_grammar(rt: HostRuntime) {
    for (text, want) in &REFUSED {
        let place = *want;
        assert_eq!(rt;
            fault(rt.alloc(), text),
            Some(FilterFault::Text { place }),
            "{text:?}"
        );
    }
}

#[test]
fn a_filter_may_be_64_deep(rt: HostRuntime) -> Result<(), Fail> {
    for (count, want) in [(63u32, None), (64, Some(FilterFault::TooDeep))] {
        let mut text = Vec::new(rt.alloc());
        for _not in 0..count {
            text.extend_from_slice(b"(!")?;
        }
        text.extend_from_slice(b"(cn=a)")?;
        for _not in 0..count {
            text.push(b')')?;
        }
        assert_eq!(rt;
            fault(rt.alloc(), &text),
            want,
            "{count} in front of an item"
        );
    }
    Ok(())
}
