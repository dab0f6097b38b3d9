use causality::accept;
use clock_calculus::check_clocks;
use ept_reader::read_program;
use erased_meaning::value_rows;
use hept_ast::{Accepted, NodeId, Rows};
use std::alloc::Global;
use std::process::Abort;
use std::test::Fail;
use type_futures::check_types;

fn accepted<R: Abort>(rt: &R, alloc: Global, text: &str) -> Accepted {
    assert!(rt; text.len() < 2000);
    let program = match read_program(alloc, text.as_bytes()) {
        Ok(program) => program,
        Err(_) => panic!(rt; "not read"),
    };
    let typed = match check_types(alloc, program) {
        Ok(typed) => typed,
        Err(fault) => panic!(rt; "{fault}"),
    };
    let clocked = match check_clocks(alloc, typed) {
        Ok(clocked) => clocked,
        Err(fault) => panic!(rt; "{fault}"),
    };
    assert!(rt; clocked.program().nodes.len() < 100);
    match accept(alloc, clocked) {
        Ok(accepted) => accepted,
        Err(_) => panic!(rt; "not accepted"),
    }
}

fn rows<R: Abort>(rt: &R, alloc: Global, text: &str) -> Result<Rows, Fail> {
    let mut rows = Rows::new(alloc);
    for line in text.split('|') {
        let mut row = Vec::new(alloc);
        for word in line.split_whitespace() {
            let value = match word {
                "true" => 1,
                "false" => 0,
                _ => match word.parse::<i32>() {
                    Ok(number) => number.cast_unsigned(),
                    Err(_) => panic!(rt; "no number: {word}"),
                },
            };
            row.push(value)?;
        }
        if rows.push(alloc, row.as_slice()).is_err() {
            panic!(rt; "no memory");
        }
    }
    Ok(rows)
}

fn gives<R: Abort>(
    rt: &R,
    alloc: Global,
    text: &str,
    top: u32,
    inputs: &str,
    outputs: &str,
) -> Result<(), Fail> {
    let accepted = accepted(rt, alloc, text);
    assert!(rt; (top as usize) < accepted.program().nodes.len());
    let inputs = rows(rt, alloc, inputs)?;
    let outputs = rows(rt, alloc, outputs)?;
    match value_rows(alloc, &accepted, NodeId(top), &inputs) {
        Ok(outs) => {
            assert_eq!(rt; outs.len(), outputs.len());
            for t in 0..outputs.len() {
                assert!(rt; outs.get(t) == outputs.get(t), "row {t} of {text}");
            }
            Ok(())
        }
        Err(_) => panic!(rt; "no values: {text}"),
    }
}

#[test]
fn delayed_sum(rt: HostRuntime) -> Result<(), Fail> {
    let text = "node main(x:int) returns (y:int) let y = 0 fby (y + x) tel";
    gives(&rt, rt.alloc(), text, 0, "1|2|3", "0|1|3")
}

// A variable may be read at the instant at which it is given.
#[test]
fn running_sum(rt: HostRuntime) -> Result<(), Fail> {
    let text = "node main(x:int) returns (y:int) let y = x + (0 fby y) tel";
    gives(&rt, rt.alloc(), text, 0, "1|2|3", "1|3|6")
}

#[test]
fn sum_wraps(rt: HostRuntime) -> Result<(), Fail> {
    let text = "node main(x:int) returns (y:int) let y = x + 1 tel";
    gives(&rt, rt.alloc(), text, 0, "2147483647", "-2147483648")
}

#[test]
fn division(rt: HostRuntime) -> Result<(), Fail> {
    let text = "node main(x:int) returns (q,r,n:int) let q = x / 2; r = x mod 2; n = x / -1 tel";
    let outputs = "-3 -1 7|-1073741824 0 -2147483648";
    gives(&rt, rt.alloc(), text, 0, "-7|-2147483648", outputs)
}

#[test]
fn reordered(rt: HostRuntime) -> Result<(), Fail> {
    let text = "node main(x:int) returns (y:int) var a:int; let y = a + 1; a = x tel";
    gives(&rt, rt.alloc(), text, 0, "4", "5")
}

#[test]
fn constructors(rt: HostRuntime) -> Result<(), Fail> {
    let text =
        "type mode = Coarse | Fine node main(m:mode) returns (k:mode; b:bool) let k = if m = Coarse then Fine else Coarse; b = m = Fine tel";
    gives(&rt, rt.alloc(), text, 0, "0|1", "1 false|0 true")
}

#[test]
fn up_and_down(rt: HostRuntime) -> Result<(), Fail> {
    let text =
        "node main() returns (last y : int = 0) let automaton state Up do y = last y + 1 until y = 3 then Down state Down do y = last y - 1 until y = 0 then Up end tel";
    gives(&rt, rt.alloc(), text, 0, "||||||", "1|2|3|2|1|0|1")
}

#[test]
fn delayed_square(rt: HostRuntime) -> Result<(), Fail> {
    let text =
        "node main(x:int) returns (y:int) let y = !((async 0) fby (async sq(x))) tel node sq(x:int) returns (z:int) let z = x * x tel";
    gives(&rt, rt.alloc(), text, 0, "2|3|4", "0|4|9")
}

#[test]
fn full_queue(rt: HostRuntime) -> Result<(), Fail> {
    let text =
        "node main(x:int) returns (y:int) var a,b,c,d : future int; let a = async<<1>> f(x); b = (async 0) fby a; c = (async 0) fby b; d = (async 0) fby c; y = !((async 0) fby d) tel node f(x:int) returns (z:int) let z = x + 1 tel";
    gives(&rt, rt.alloc(), text, 0, "1|2|3|4|5|6", "0|0|0|0|2|3")
}

#[test]
fn future_as_argument(rt: HostRuntime) -> Result<(), Fail> {
    let text =
        "node f(x:int) returns (z:int) let z = x * x tel node g(h: future int) returns (z:int) let z = !h + 1 tel node main(x:int) returns (y:int) let y = !(async g(async f(x))) tel";
    gives(&rt, rt.alloc(), text, 2, "3", "10")
}

#[test]
fn pre_of_a_future(rt: HostRuntime) -> Result<(), Fail> {
    let text =
        "node main(x:int) returns (y:int) var a : future int; let a = async f(x); y = 0 -> !(pre a) tel node f(x:int) returns (z:int) let z = x + 1 tel";
    gives(&rt, rt.alloc(), text, 0, "1|2|3", "0|2|3")
}

#[test]
fn switch_with_last(rt: HostRuntime) -> Result<(), Fail> {
    let text =
        "node main(c:bool; x:int) returns (last y : int = 0) let switch c | true do y = last y + x | false do end tel";
    gives(&rt, rt.alloc(), text, 0, "true 5|false 9|true 1", "5|5|6")
}

const SUM: &str = "node sum(x:int) returns (s:int) let s = x + (0 fby s) tel ";

fn with_sum<R: Abort>(
    rt: &R,
    alloc: Global,
    main: &str,
    inputs: &str,
    outputs: &str,
) -> Result<(), Fail> {
    let mut text = String::new(alloc);
    text.push_str(SUM)?;
    text.push_str(main)?;
    gives(rt, alloc, text.as_str(), 1, inputs, outputs)
}

#[test]
fn sum_on_a_clock(rt: HostRuntime) -> Result<(), Fail> {
    let main =
        "node main(c:bool; x:int) returns (y:int) var f1 : future int; let f1 = async sum(x when c); y = merge c (true -> !f1) (false -> 0) tel";
    with_sum(&rt, rt.alloc(), main, "true 5|false 7|true 2", "5|0|7")
}

#[test]
fn reset_while_absent(rt: HostRuntime) -> Result<(), Fail> {
    let main =
        "node main(c,r:bool; x:int) returns (y:int) var f1 : future int; let reset f1 = async sum(x when c) every r; y = merge c (true -> !((async 0) fby f1)) (false -> 0) tel";
    let inputs = "true false 5|false true 9|true false 3|true false 4|true false 0";
    with_sum(&rt, rt.alloc(), main, inputs, "0|0|5|3|7")
}

#[test]
fn call_on_a_clock(rt: HostRuntime) -> Result<(), Fail> {
    let main =
        "node main(c:bool; x:int) returns (y:int) let y = merge c (true -> sum(x when c)) (false -> 0) tel";
    with_sum(&rt, rt.alloc(), main, "true 5|false 7|true 2", "5|0|7")
}

#[test]
fn reset_call(rt: HostRuntime) -> Result<(), Fail> {
    let main = "node main(r:bool; x:int) returns (y:int) let reset y = sum(x) every r tel";
    let inputs = "false 1|false 2|true 3|false 4";
    with_sum(&rt, rt.alloc(), main, inputs, "1|3|3|7")
}

fn push_times(text: &mut String, line: &str, times: usize) -> Result<(), Fail> {
    for _ in 0..times {
        text.push_str(line)?;
    }
    Ok(())
}

fn repeated(alloc: Global, first: &str, line: &str, times: usize) -> Result<String, Fail> {
    let mut text = String::new(alloc);
    text.push_str(first)?;
    push_times(&mut text, line, times)?;
    Ok(text)
}

#[test]
fn kept_future(rt: HostRuntime) -> Result<(), Fail> {
    let inputs = repeated(rt.alloc(), "false 10", "|true 0", 59)?;
    let outputs = repeated(rt.alloc(), "0", "|11", 59)?;
    gives(
        &rt,
        rt.alloc(),
        "node main(keep:bool; x:int) returns (y:int) var m : future int; let m = (async 0) fby (if keep then m else async f(x)); y = !m tel node f(x:int) returns (z:int) let z = x + 1 tel",
        0,
        inputs.as_str(),
        outputs.as_str(),
    )
}

const POINTING: &str =
    "type mode = Coarse | Fine node estimate(star:int) returns (att:int) let att = star + ((0 fby att) / 2) tel node main(gyro,star:int) returns (cmd:int; m:mode) var t,est:int; tick:bool; f1 : future int; let t = 0 fby (if t = 9 then 0 else t + 1); tick = (t = 0); f1 = async estimate(star when tick); est = merge tick (true -> !((async 0) fby f1)) (false -> (0 fby est) whenot tick); automaton state Far do m = Coarse; cmd = 0 - (est / 4) - gyro until est < 100 & est > -100 then Near state Near do m = Fine; cmd = 0 - (est / 16) - gyro / 2 unless est >= 100 or est <= -100 then Far end tel";

// What the pointing program gives, and how many times.
const POINTED: [(&str, usize); 8] = [
    ("|-4 1", 9),
    ("|-48 0", 10),
    ("|-68 0", 10),
    ("|-78 0", 10),
    ("|-83 0", 10),
    ("|-85 0", 10),
    ("|-86 0", 10),
    ("|-87 0", 130),
];

fn pointed(alloc: Global) -> Result<String, Fail> {
    let mut text = String::new(alloc);
    text.push_str("-8 0")?;
    for (line, times) in &POINTED {
        push_times(&mut text, line, *times)?;
    }
    Ok(text)
}

#[test]
fn pointing(rt: HostRuntime) -> Result<(), Fail> {
    let inputs = repeated(rt.alloc(), "8 160", "|8 160", 199)?;
    let outputs = pointed(rt.alloc())?;
    gives(
        &rt,
        rt.alloc(),
        POINTING,
        1,
        inputs.as_str(),
        outputs.as_str(),
    )
}
