// Netlists and refusals of small designs in several files, worked by hand.
use crate::files::answer;
use std::test::Fail;

const GOOD: &str =
    "module a(input clk, input d, output reg q);\nalways @(posedge clk) q <= d;\nendmodule\n";

#[test]
fn tokens_are_refused_at_their_lines(rt: HostRuntime) -> Result<(), Fail> {
    let rows = [
        ("8'hG; endmodule", "rejected BadNumber f0 2\n"),
        ("72'h0; endmodule", "rejected NumberTooWide f0 2\n"),
        (
            "1; initial y = 0; endmodule",
            "rejected Unsupported f0 initial 2\n",
        ),
        ("\n$time; endmodule", "rejected Unsupported f0 $time 3\n"),
        ("; endmodule", "rejected NoTree f0 1\n"),
        ("1; endmodule\n\nmodule", "rejected NoTree f0 4\n"),
        ("z; endmodule", "rejected NoName z 1\n"),
        ("\"\"; endmodule", "rejected BadByte f0 2\n"),
        ("/*", "rejected OpenComment f0 2\n"),
        ("`x", "rejected Directive f0 2\n"),
    ];
    for (rest, line) in rows {
        let text = format!(in rt.alloc(); "module e(output y);\nassign y = {rest}")?;
        let told = answer(rt.alloc(), &[text.as_str()], "e", None)?;
        assert_eq!(rt; told.as_str(), line, "{rest}");
    }
    Ok(())
}

#[test]
fn tokens_of_a_file_come_before_its_trees(rt: HostRuntime) -> Result<(), Fail> {
    let told = answer(
        rt.alloc(),
        &["module a;\n;;; 8'hG endmodule"],
        "a",
        Some("clk"),
    )?;
    assert_eq!(rt; told.as_str(), "rejected BadNumber f0 2\n");
    Ok(())
}

#[test]
fn trees_of_a_file_come_before_the_tokens_of_the_next(rt: HostRuntime) -> Result<(), Fail> {
    let told = answer(rt.alloc(), &[GOOD, "\n;", "8'hG"], "a", Some("clk"))?;
    assert_eq!(rt; told.as_str(), "rejected NoTree f1 2\n");
    Ok(())
}

#[test]
fn all_files_are_parsed_before_the_design_is_elaborated(rt: HostRuntime) -> Result<(), Fail> {
    let told = answer(rt.alloc(), &[GOOD, GOOD, "\n\n;"], "a", Some("clk"))?;
    assert_eq!(rt; told.as_str(), "rejected NoTree f2 3\n");
    let told = answer(rt.alloc(), &[GOOD, GOOD], "a", Some("clk"))?;
    assert_eq!(rt; told.as_str(), "rejected TwoModules a\n");
    Ok(())
}

#[test]
fn a_design_is_elaborated_before_its_units_are_looked_at(rt: HostRuntime) -> Result<(), Fail> {
    let latch =
        "module a(input clk, input e, input d, output reg q); always @* if (e) q = d; endmodule";
    let undriven =
        "module a(input clk, input e, input d, output reg q, output y); always @* if (e) q = d; endmodule";
    let told = answer(rt.alloc(), &[undriven], "a", Some("clk"))?;
    assert_eq!(rt; told.as_str(), "rejected Undriven y\n");
    let told = answer(rt.alloc(), &[latch], "a", Some("clk"))?;
    assert_eq!(rt; told.as_str(), "rejected Latch q\n");
    Ok(())
}

#[test]
fn designs_without_a_file_of_modules_have_no_top(rt: HostRuntime) -> Result<(), Fail> {
    let told = answer(rt.alloc(), &["", " // none\n"], "a", Some("clk"))?;
    assert_eq!(rt; told.as_str(), "rejected NoTop\n");
    Ok(())
}

#[test]
fn a_heavy_design_is_refused_at_its_weight(rt: HostRuntime) -> Result<(), Fail> {
    let heavy = "module a(input clk, input [63:0] x, output [63:0] y); assign y = x * x; endmodule";
    let told = answer(rt.alloc(), &[heavy], "a", Some("clk"))?;
    assert_eq!(rt; told.as_str(), "rejected Limit Weight\n");
    Ok(())
}

#[test]
fn a_design_of_two_files_has_a_netlist(rt: HostRuntime) -> Result<(), Fail> {
    let top =
        "module i(input clk, input d, output y);\nwire m;\na u0 (clk, d, m);\na u1 (.q(y), .clk(clk), .d(m));\nendmodule\n";
    let told = answer(rt.alloc(), &[GOOD, top], "i", Some("clk"))?;
    assert_eq!(rt; told.as_str(), "signals 10 units 4 clocked 2 outputs 1");
    Ok(())
}
