// Lines of a trace, read.
use hm_report::Buffer;
use hm_script::Reason;
use hm_trace::{Fault, TraceReader, put_line};

/// Whether each line is read, and is the text of what it tells.
fn are_lines(reader: &mut TraceReader, out: &mut Buffer, lines: &[&str]) -> bool {
    for line in lines.iter() {
        let Ok(told) = reader.line(line.as_bytes()) else {
            return false;
        };
        put_line(out, &told);
        if out.as_slice() != line.as_bytes() {
            return false;
        }
    }
    true
}

#[test]
fn lines_of_a_trace(rt: HostRuntime) {
    let lines = [
        "\n",
        "names set erase use take free model\n",
        "7 a97 insert m5 p17 0 4503599627370495 -\n",
        "8 a97 inserted m5 1 failed\n",
        "9 a1 start p17 16 2 protect_vma d3\n",
        "10 a1 tell m5 16 2 3\n",
        "11 a1 told m5 3 done\n",
        "12 a1 end p17 16 2\n",
        "lost 88 2\n",
        "101 a2 walk m5 16 1 3 unlocked d0\n",
        "102 a2 found m5 16 d12.34 r\n",
        "103 a2 walked m5 done\n",
        "104 a2 set m5 16 c0.3 x\n",
        "105 a2 setup p17 16 1 todev d0\n",
        "106 a2 from 16 none w\n",
        "107 a2 stayed 16 s18446744073709551615\n",
        "108 a2 pages p17\n",
        "109 a2 use m5 16 1 w\n",
        "110 a2 gone d1\n",
    ];
    let mut reader = TraceReader::new(rt.alloc()).expect(&rt, "memory");
    let mut out = Buffer::new(rt.alloc()).expect(&rt, "memory");
    assert!(rt; are_lines(&mut reader, &mut out, &lines));
    assert!(rt; !reader.progress().is_whole());
}

/// Whether a new reader refuses each second line after the first one, as line 2 and for this reason.
fn are_refused(reader: &mut TraceReader, lines: &[(&str, Fault)]) -> bool {
    if reader.line(b"0 a0 erase m0 16 # a comment\n").is_err() {
        return false;
    }
    for (line, why) in lines.iter() {
        match reader.line(line.as_bytes()) {
            Err(refused) if refused.line == 2 && refused.why == *why => {}
            _ => return false,
        }
    }
    true
}

#[test]
fn what_a_trace_refuses(rt: HostRuntime) {
    let lines = [
        ("1 a0 erase m0 16", Fault::Line(Reason::LineEnd)),
        ("1 a0 erase m0 16 17\n", Fault::Line(Reason::Shape)),
        ("1 a0 erase  m0 16\n", Fault::Line(Reason::Number)),
        ("1 a0 erase p0 16\n", Fault::Line(Reason::Shape)),
        ("1 a0 erased m0 16\n", Fault::Line(Reason::Word)),
        ("1 a0 erase m0 016\n", Fault::Line(Reason::Number)),
        (
            "1 a0 erase m0 18446744073709551616\n",
            Fault::Line(Reason::Number),
        ),
        ("1 a0 set m0 16 s29f8 r\n", Fault::Line(Reason::Number)),
        ("2 a0 erase m0 16\n", Fault::NotNext),
        ("names set\n", Fault::LateNames),
        ("lost 18446744073709551615 0\n", Fault::TooMany),
    ];
    let mut reader = TraceReader::new(rt.alloc()).expect(&rt, "memory");
    assert!(rt; are_refused(&mut reader, &lines));
}
