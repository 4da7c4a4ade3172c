//! A text that is read, and looked into; one that is refused; tokens; and what is printed into each sink.
use conf_text::{
    ConfEntry, ConfRefusal, CountedBytes, Item, Section, TextSink, Tree, begin_list, end_list,
    list_number, list_pair, list_text, read_conf, tokens, write_close, write_number,
    write_numbered_open, write_open, write_text, write_words,
};
use std::alloc::AllocError;

const TEXT: &[u8] = b"vg0 {\nid = \"x\\\"\" # a \"\npvs{pv0{}}seqno=7}\nflags = [\"A\", 2]\n";

fn number_in(section: &Section<'_>, name: &[u8]) -> Option<u64> {
    match section.get(name) {
        Some(Item::Number(number)) => Some(number),
        _ => None,
    }
}

fn section_in<'a>(section: &Section<'a>, name: &[u8]) -> Option<Section<'a>> {
    match section.get(name) {
        Some(Item::Section(body)) => Some(body),
        _ => None,
    }
}

#[test]
fn a_text_is_read(rt: HostRuntime) {
    let tree = read_conf(rt.alloc(), TEXT).expect(&rt, "a tree");
    assert!(rt; tree.as_slice().len() == 9);
    let top = tree.top();
    let group = section_in(&top, b"vg0").expect(&rt, "the group");
    assert!(rt; number_in(&group, b"seqno") == Some(7));
    assert!(rt; number_in(&top, b"seqno") == None);
}

#[test]
fn sections_are_gone_over(rt: HostRuntime) {
    let tree = read_conf(rt.alloc(), TEXT).expect(&rt, "a tree");
    let (first, _, rest) = tree.top().split_first().expect(&rt, "a name");
    assert!(rt; first == b"vg0".as_slice());
    let (second, _, rest) = rest.split_first().expect(&rt, "a name more");
    assert!(rt; second == b"flags".as_slice());
    assert!(rt; rest.split_first().is_none());
}

#[test]
fn a_tree_is_its_entries(rt: HostRuntime) -> Result<(), AllocError> {
    let tree = Tree::from_vec(vec![in rt.alloc(); ConfEntry::Open(b"a"), ConfEntry::Close]?);
    assert!(rt; tree.as_slice().len() == 2);
    Ok(())
}

#[test]
fn an_open_section_is_refused(rt: HostRuntime) -> Result<(), AllocError> {
    let refusal = read_conf(rt.alloc(), b"a {").err().expect(&rt, "a refusal");
    assert!(rt; refusal == ConfRefusal::Unclosed(2));
    let shown = format!(in rt.alloc(); "{refusal}")?;
    assert_eq!(rt; shown.as_str(), "Unclosed 2");
    Ok(())
}

#[test]
fn a_text_has_tokens(rt: HostRuntime) {
    let found = tokens(rt.alloc(), b"vg0{ # a\n}").expect(&rt, "tokens");
    assert!(rt; found.as_slice().len() == 3);
    let refusal = tokens(rt.alloc(), b"a = \"x").err();
    assert!(rt; refusal == Some(ConfRefusal::Unclosed(4)));
}

const PRINTED: &[u8] = b"vg0 {
id = \"a \\\"b\\\" \\\\c\"
seqno = 18446744073709551615
status = [\"READ\", \"WRITE\"]
flags = []
segment1 {
stripes = [\"pv0\", 0, \"pv1\", 7]
}
sizes = [1, \"x\"]
}
";

fn write_group<S: TextSink>(sink: &mut S) -> Result<(), AllocError> {
    write_open(sink, b"vg0")?;
    write_text(sink, b"id", b"a \"b\" \\c")?;
    write_number(sink, b"seqno", u64::MAX)?;
    write_words(sink, b"status", &[b"READ", b"WRITE"])?;
    write_words(sink, b"flags", &[])?;
    write_numbered_open(sink, b"segment", 1)?;
    write_legs(sink)?;
    write_close(sink)?;
    write_sizes(sink)?;
    write_close(sink)
}

fn write_legs<S: TextSink>(sink: &mut S) -> Result<(), AllocError> {
    begin_list(sink, b"stripes")?;
    list_pair(sink, 0, b"pv0", 0)?;
    list_pair(sink, 1, b"pv1", 7)?;
    end_list(sink)
}

fn write_sizes<S: TextSink>(sink: &mut S) -> Result<(), AllocError> {
    begin_list(sink, b"sizes")?;
    list_number(sink, 0, 1)?;
    list_text(sink, 1, b"x")?;
    end_list(sink)
}

#[test]
fn a_group_is_printed(rt: HostRuntime) {
    let mut text = Vec::new(rt.alloc());
    write_group(&mut text).expect(&rt, "memory");
    assert!(rt; text.as_slice() == PRINTED);
}

#[test]
fn what_is_printed_is_counted(rt: HostRuntime) {
    let mut counted = CountedBytes::new();
    write_group(&mut counted).expect(&rt, "it can't fail");
    assert!(rt; counted.count() == PRINTED.len() as u64);
}
