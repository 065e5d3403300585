//! What a tree file spells, or its fault.

use base_texts::Stop;
use spec_tree_file::Element;
use std::alloc::Global;
use std::test::Fail;
use tree_elements::read_elements;

/// The name, place, attributes and children, as `a@0[k=v;](b@3[]())`.
fn outline(alloc: Global, element: &Element, out: &mut Vec<u8>) -> Result<(), Fail> {
    out.extend_from_slice(element.name.list())?;
    out.extend_from_slice(format!(in alloc; "@{}[", element.place)?.as_bytes())?;
    for (name, value) in element.attributes.list() {
        out.extend_from_slice(name.list())?;
        out.push(b'=')?;
        out.extend_from_slice(value.list())?;
        out.push(b';')?;
    }
    out.extend_from_slice(b"](")?;
    for child in element.children.list() {
        outline(alloc, child, out)?;
    }
    out.push(b')')?;
    Ok(())
}

/// The outline of what the bytes spell, or their fault.
fn outcome(alloc: Global, bytes: &[u8]) -> Result<Vec<u8>, Fail> {
    let mut out = Vec::new(alloc);
    if bytes.len() > 1_048_576 {
        out.extend_from_slice(b"too long")?;
        return Ok(out);
    }
    match read_elements(alloc, bytes) {
        Ok(elements) => outline(alloc, &elements.root, &mut out)?,
        Err(Stop::Fault(fault)) => {
            out.extend_from_slice(format!(in alloc; "{fault:?}")?.as_bytes())?;
        }
        Err(Stop::NoMemory) => out.extend_from_slice(b"NoMemory")?,
    }
    Ok(out)
}

/// The last mark inside this many elements, each in the one before it.
fn nested(alloc: Global, depth: usize, last: &[u8]) -> Result<Vec<u8>, Fail> {
    let mut out = Vec::new(alloc);
    for _ in 0..depth {
        out.extend_from_slice(b"<a>")?;
    }
    out.extend_from_slice(last)?;
    for _ in 0..depth {
        out.extend_from_slice(b"</a>")?;
    }
    Ok(out)
}

/// The outline or the fault of the last mark inside this many elements.
fn nested_outcome(alloc: Global, depth: usize, last: &[u8]) -> Result<Vec<u8>, Fail> {
    outcome(alloc, nested(alloc, depth, last)?.as_slice())
}

/// Whether the last mark inside this many elements can be read.
fn nested_is_read(alloc: Global, depth: usize, last: &[u8]) -> Result<bool, Fail> {
    let bytes = nested(alloc, depth, last)?;
    Ok(bytes.len() <= 1_048_576 && read_elements(alloc, bytes.as_slice()).is_ok())
}

/// Files, and what each of them spells.
static SPELLED: [(&[u8], &[u8]); 69] = [
    // marks
    (
        b"<root BTCPP_format=\"4\"><BehaviorTree ID=\"M\"><Sequence><A/><B/></Sequence></BehaviorTree></root>",
        b"root@0[BTCPP_format=4;](BehaviorTree@23[ID=M;](Sequence@44[](A@54[]()B@58[]())))",
    ),
    (
        b"\n<a\tk = \"1\" l='x \"y\"' >\r\n</a >\r\n",
        b"a@1[k=1;l=x \"y\";]()",
    ),
    (
        b"<?xml version=\"1.0\"?><!-- a > <b> -- ?> --><a/><!---->",
        b"a@43[]()",
    ),
    (b"<a><!--b--><?c?><d/><!--e--></a>", b"a@0[](d@16[]())"),
    (b"<??><!--->--><a/>", b"a@13[]()"),
    (b"\xEF\xBB\xBF<a/>", b"a@3[]()"),
    (
        b"<a-b.c:d \xC3\xA9-1='\xC3\xA9'/>",
        b"a-b.c:d@0[\xC3\xA9-1=\xC3\xA9;]()",
    ),
    (b"<a k='\r\n\t'/>", b"a@0[k=\r\n\t;]()"),
    (
        b"<a>x<TreeNodesModel>text \x00<b>more</b></TreeNodesModel></a>",
        b"StrayText { place: 3 }",
    ),
    (
        b"<a><TreeNodesModel>text \x00<b>more</b>&</TreeNodesModel></a>",
        b"a@0[](TreeNodesModel@3[](b@25[]()))",
    ),
    (
        b"<TreeNodesModel>x<!-- y -->z</TreeNodesModel>",
        b"TreeNodesModel@0[]()",
    ),
    // references
    (b"<a k='&lt;&gt;&amp;&quot;&apos;'/>", b"a@0[k=<>&\"';]()"),
    (
        b"<a k='&#65;&#x41;&#x4a;&#0065;&#xe9;&#x1F600;'/>",
        b"a@0[k=AAJA\xC3\xA9\xF0\x9F\x98\x80;]()",
    ),
    (b"<a k='&#10;&amp;lt;'/>", b"a@0[k=\n&lt;;]()"),
    (
        b"<a k='&&lt &LT; &#; &#x; &#X41; &#0;'/>",
        b"a@0[k=&&lt &LT; &#; &#x; &#X41; &#0;;]()",
    ),
    (
        b"<a k='&#xD800;&#xDFFF;&#x110000;&#4294967361;&#xD7FF;'/>",
        b"a@0[k=&#xD800;&#xDFFF;&#x110000;&#4294967361;\xED\x9F\xBF;]()",
    ),
    (b"<a k='&#6a;&nbsp;&'/>", b"a@0[k=&#6a;&nbsp;&;]()"),
    // not UTF-8
    (b"\xFF", b"NotUtf8 { place: 0 }"),
    (b"x<a>\xC3</a>", b"NotUtf8 { place: 4 }"),
    (b"<a/>\xF0\x9F\x98", b"NotUtf8 { place: 4 }"),
    // bad marks
    (b"<!-- x", b"BadMark { place: 0 }"),
    (b"<!-- x --", b"BadMark { place: 0 }"),
    (b"<!-->", b"BadMark { place: 0 }"),
    (b"<?>", b"BadMark { place: 0 }"),
    (b"<?x", b"BadMark { place: 0 }"),
    (b"<!-- \x00 --><a/>", b"BadMark { place: 0 }"),
    (b"<?\x00?><a/>", b"BadMark { place: 0 }"),
    (b"<!DOCTYPE root><root/>", b"BadMark { place: 0 }"),
    (b"<root a=\"1<2\"/>", b"BadMark { place: 0 }"),
    (b"<a k=\"\x00\"/>", b"BadMark { place: 0 }"),
    (b"<a k=\"1\"l=\"2\"/>", b"BadMark { place: 0 }"),
    (b"<a k=1/>", b"BadMark { place: 0 }"),
    (b"<a k/>", b"BadMark { place: 0 }"),
    (b"<a k=\"1'/>", b"BadMark { place: 0 }"),
    (b"<1a/>", b"BadMark { place: 0 }"),
    (b"<-a/>", b"BadMark { place: 0 }"),
    (b"< a/>", b"BadMark { place: 0 }"),
    (b"<>", b"BadMark { place: 0 }"),
    (b"<", b"BadMark { place: 0 }"),
    (b"<a / >", b"BadMark { place: 0 }"),
    (b"<a></a", b"BadMark { place: 3 }"),
    (b"<a></ a>", b"BadMark { place: 3 }"),
    (b"<a></a k='1'>", b"BadMark { place: 3 }"),
    (b"<root", b"BadMark { place: 0 }"),
    // marks that do not match
    (b"", b"Unmatched { place: 0 }"),
    (b" \n", b"Unmatched { place: 2 }"),
    (b"\xEF\xBB\xBF", b"Unmatched { place: 3 }"),
    (b"<!--a-->", b"Unmatched { place: 8 }"),
    (b"<a><b></b>", b"Unmatched { place: 10 }"),
    (b"<root/><root/>", b"Unmatched { place: 7 }"),
    (b"<a></a></a>", b"Unmatched { place: 7 }"),
    (b"</a>", b"Unmatched { place: 0 }"),
    (b"<root></Root>", b"Unmatched { place: 6 }"),
    (b"<a><b></a></b>", b"Unmatched { place: 6 }"),
    // attributes of one name
    (b"<a k=\"1\" k=\"1\"/>", b"DoubleAttribute { place: 0 }"),
    (
        b"<a><b k='1' l='2' k='3'></a>",
        b"DoubleAttribute { place: 3 }",
    ),
    // text
    (b"x", b"StrayText { place: 0 }"),
    (b"x<a/>", b"StrayText { place: 0 }"),
    (b"<root>x</root>", b"StrayText { place: 6 }"),
    (b"<a>\n\xC2\xA0</a>", b"StrayText { place: 4 }"),
    (b"<a/>\n&", b"StrayText { place: 5 }"),
    (b"\xEF\xBB\xBF\xEF\xBB\xBF<a/>", b"StrayText { place: 3 }"),
    (b"<a><TreeNodesModel/>x</a>", b"StrayText { place: 20 }"),
    (
        b"<TreeNodesModel></TreeNodesModel> x",
        b"StrayText { place: 34 }",
    ),
    // the first of two
    (b"x<", b"StrayText { place: 0 }"),
    (b"<a/><b k='1' k='2'/>", b"DoubleAttribute { place: 4 }"),
    (b"<a/><b k='1' k='2'", b"BadMark { place: 4 }"),
    (b"<a k='1' k='2'/><!--", b"DoubleAttribute { place: 0 }"),
    (b"</b x></a>", b"BadMark { place: 0 }"),
];

/// Each of `SPELLED` has its outline or its fault.
#[test]
fn elements_and_faults(rt: HostRuntime) -> Result<(), Fail> {
    let alloc = rt.alloc();
    for (bytes, want) in &SPELLED {
        assert_eq!(rt; outcome(alloc, bytes)?.as_slice(), *want);
    }
    Ok(())
}

/// Depths with the last mark at each, and the fault.
static DEEP: [(usize, &[u8], &[u8]); 5] = [
    (257, b"<a k='1' k='1'/>", b"DoubleAttribute { place: 771 }"),
    (258, b"<a>", b"TooDeep { place: 774 }"),
    (258, b"<a/>", b"TooDeep { place: 774 }"),
    (258, b"</b>", b"Unmatched { place: 774 }"),
    (258, b"<a k='1' k='1'/>", b"DoubleAttribute { place: 774 }"),
];

/// Each of `DEEP` has its fault, and the deepest files are read.
#[test]
fn depths(rt: HostRuntime) -> Result<(), Fail> {
    let alloc = rt.alloc();
    for (depth, last, want) in &DEEP {
        assert_eq!(rt; nested_outcome(alloc, *depth, last)?.as_slice(), *want);
    }
    assert!(rt; nested_is_read(alloc, 257, b"<a/>")?);
    assert!(rt; nested_is_read(alloc, 258, b"    ")?);
    Ok(())
}
