// Flat designs and refusals of small texts, worked by hand.
use crate::texts::answer;
use std::test::Fail;

// A register with a parameter for its width, and two of them in a row.
const REGISTER: &str = "`timescale 1ns/1ps\n\
    module r #(parameter W = 1) (input clk, input rst, input [W-1:0] d, output reg [W-1:0] q);\n\
    always @(posedge clk) if (rst) q <= 0; else q <= d; endmodule\n";

const TWO: &str =
    "(* top *) module i(clk, rst, d, y); input clk, rst; input [2:0] d; output [2:0] y;\n\
    wire [2:0] m; r #(.W(3)) u0 (clk, rst, d, m); r #(3) u1 (.q(y), .clk(clk), .rst(rst), .d(m)); endmodule\n";

#[test]
fn instances_are_replaced_in_pre_order(rt: HostRuntime) -> Result<(), Fail> {
    let told = answer(rt.alloc(), &[REGISTER, TWO], "i", "clk")?;
    assert_eq!(rt;
        told.as_str(),
        "clk 1 Clock rst 1 Input d 3 Input y 3 Wire m 3 Wire \
         u0.clk 1 Clock u0.rst 1 Wire u0.d 3 Wire u0.q 3 Register \
         u1.clk 1 Clock u1.rst 1 Wire u1.d 3 Wire u1.q 3 Register "
    );
    Ok(())
}

#[test]
fn refusals_in_the_order_of_their_rows(rt: HostRuntime) -> Result<(), Fail> {
    let rows = [
        (
            "module w(input clk, input rst, output co); reg [64:0] n;\n\
             always @(posedge clk) if (rst) n <= 0; else n <= n + 1; assign co = &n; endmodule",
            "w",
            "TooWide n 0",
        ),
        ("module a; endmodule", "t", "NoTop  0"),
        (
            "module a; endmodule module a; endmodule",
            "t",
            "TwoModules a 0",
        ),
        (
            "module a; endmodule module b; endmodule module b; endmodule module a; endmodule",
            "a",
            "TwoModules b 0",
        ),
        (
            "module t(input clk, output y); assign y = clk; endmodule",
            "t",
            "ClockMisused clk 0",
        ),
        (
            "module t(input d, output y); assign y = d; endmodule",
            "t",
            "ClockMissing clk 0",
        ),
        (
            "module t(input clk, output y); assign y = z; endmodule",
            "t",
            "NoName z 1",
        ),
        (
            "module r(input clk, input rn, input d, output reg q);\n\
             always @(posedge clk or negedge rn) q <= d; endmodule",
            "r",
            "Edges r 1",
        ),
        (
            "module w(input clk, input i, output reg q); wire z; assign z = ~i;\n\
             always @(posedge clk or posedge z) if (z) q <= 1'b0; else q <= i; endmodule",
            "w",
            "ResetMisused z 0",
        ),
    ];
    for (text, top, refusal) in rows {
        let told = answer(rt.alloc(), &[text], top, "clk")?;
        assert_eq!(rt; told.as_str(), refusal, "{text}");
    }
    Ok(())
}
