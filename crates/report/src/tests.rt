// Whole inputs, and what is printed for them.
use crate::{report_from, report_on};
use std::alloc::Global;
use std::process::Abort;
use std::test::Fail;

// The input gives the text.
fn check_report(rt: &impl Abort, heap: Global, input: &str, wanted: &str) -> Result<(), Fail> {
    let text = report_on(heap, input.as_bytes())?;
    assert_eq!(rt; text.as_str(), wanted, "{}", input);
    Ok(())
}

#[test]
fn first_lines_that_are_refused(rt: HostRuntime) -> Result<(), Fail> {
    let inputs =
        "|\n7 2|7  2|07 2|7 02|7 0|7 17|8 2|+7 2|7 +2|7|7 | 7 2|7 2 |7 2\r\n|7\t2|17 0|17 17|017 2|7 2 86c1c14000";
    for input in inputs.split('|') {
        check_report(&rt, rt.alloc(), input, "refused 9\n")?;
    }
    Ok(())
}

#[test]
fn lines_of_width_7(rt: HostRuntime) -> Result<(), Fail> {
    let heap = rt.alloc();
    check_report(&rt, heap, "7 2", "")?;
    check_report(
        &rt,
        heap,
        "7 2\n\n86c1c14000\n\n86c1c14000",
        "1 refused 2\n2 clean 6 3\n3 refused 2\n4 clean 6 3\n",
    )?;
    check_report(
        &rt,
        heap,
        "7 2\n86C1C14000\n86c1c1400\n86c1c14000\r\n",
        "1 refused 2\n2 refused 2\n3 refused 2\n",
    )?;
    check_report(
        &rt,
        heap,
        "7 1\n7f3ffb03\n7e3ffb03\n",
        "1 clean 127\n2 mended 127 at block 1 bit 0\n",
    )?;
    check_report(
        &rt,
        heap,
        "7 16\n01c18050301c1009c582d1703ca0139d07",
        "1 mended 1 2 3 4 5 6 7 8 9 10 11 12 13 14 15 16 at block 16 bit 6\n",
    )
}

#[test]
fn lines_of_width_17(rt: HostRuntime) -> Result<(), Fail> {
    let heap = rt.alloc();
    check_report(
        &rt,
        heap,
        "17 1\nfffffdff0fffff01\n\nfffff5ff0fffff01",
        "1 clean 131071\n2 refused 2\n3 mended 131071 at mask bit 2\n",
    )?;
    check_report(
        &rt,
        heap,
        "17 1\nFffffdff0fffff01\nfffffdff0fffff0\nfffffdff0fffff01\r",
        "1 refused 2\n2 refused 2\n3 refused 2\n",
    )?;
    check_report(
        &rt,
        heap,
        "17 16\n0000000000000000000000000000000000000000000000000000000000000000000002000a0980\n0000000000000000000000000000000000000000000000000000000000000000008002000a0980",
        "1 clean 0 0 0 0 0 0 0 0 0 0 0 0 0 0 0 0\n2 mended 0 0 0 0 0 0 0 0 0 0 0 0 0 0 0 0 at block 16 bit 16\n",
    )
}

#[test]
fn longest_input(rt: HostRuntime) -> Result<(), Fail> {
    let mut input = Vec::from_slice(rt.alloc(), b"7 2\n")?;
    input.resize(65_536, b'0')?;
    assert_eq!(rt; report_on(rt.alloc(), &input)?.as_str(), "1 refused 2\n");
    input.push(b'0')?;
    assert_eq!(rt; report_on(rt.alloc(), &input)?.as_str(), "refused 2\n");
    Ok(())
}

// Read through a reader, as the program reads.
#[test]
fn longest_input_read(rt: HostRuntime) -> Result<(), Fail> {
    let heap = rt.alloc();
    let mut input = Vec::from_slice(heap, b"7 2\n")?;
    input.resize(65_536, b'0')?;
    assert_eq!(rt;
        report_from(heap, input.as_slice())?.as_str(),
        "1 refused 2\n"
    );
    input.push(b'0')?;
    assert_eq!(rt;
        report_from(heap, input.as_slice())?.as_str(),
        "refused 2\n"
    );
    input.resize(70_000, b'0')?;
    assert_eq!(rt;
        report_from(heap, input.as_slice())?.as_str(),
        "refused 2\n"
    );
    Ok(())
}
