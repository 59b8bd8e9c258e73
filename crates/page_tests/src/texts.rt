//! Texts, numbers, and the page round its data.

use page_template::{write_head, write_tail};
use page_text::{write_hex, write_number, write_string, write_title};
use std::test::Fail;
use text_out::ToVec;

#[test]
fn a_string(rt: HostRuntime) -> Result<(), Fail> {
    let mut out = ToVec::new(Vec::new(rt.alloc()));
    write_string(b"a<\"\x01", 60, &mut out)?;
    assert_eq!(rt;
        out.bytes.as_slice(),
        b"\"a\\u003c\\u0022\\u005cu{1}\"".as_slice()
    );
    Ok(())
}

#[test]
fn a_long_string(rt: HostRuntime) -> Result<(), Fail> {
    let mut out = ToVec::new(Vec::new(rt.alloc()));
    write_string(b"abcd", 3, &mut out)?;
    assert_eq!(rt; out.bytes.as_slice(), b"\"abc..\"".as_slice());
    Ok(())
}

#[test]
fn a_title(rt: HostRuntime) -> Result<(), Fail> {
    let mut out = ToVec::new(Vec::new(rt.alloc()));
    write_title(b"a<b", 200, &mut out)?;
    assert_eq!(rt; out.bytes.as_slice(), b"a&#x3c;b".as_slice());
    Ok(())
}

#[test]
fn numbers(rt: HostRuntime) -> Result<(), Fail> {
    let mut out = ToVec::new(Vec::new(rt.alloc()));
    write_number(18_446_744_073_709_551_615, &mut out)?;
    write_hex(&[0, 255], &mut out)?;
    assert_eq!(rt;
        out.bytes.as_slice(),
        b"18446744073709551615\"00ff\"".as_slice()
    );
    Ok(())
}

#[test]
fn a_page_without_data(rt: HostRuntime) -> Result<(), Fail> {
    let mut out = ToVec::new(Vec::new(rt.alloc()));
    write_head(b"lost update", &mut out)?;
    assert!(rt; out.bytes.as_slice().starts_with(b"<!DOCTYPE html>\n"));
    write_tail(&mut out)?;
    assert!(rt; out.bytes.as_slice().ends_with(b"</html>\n"));
    Ok(())
}
