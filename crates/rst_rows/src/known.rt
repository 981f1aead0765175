// Rows of `known`.
use crate::bench::run_texts;
use crate::sources::{ASYNCHRONOUS, HIERARCHY, INVERTER, NO_CLOCK, SHIFT, one};
use std::test::Fail;

const SUM: &str =
    "module a(input clk, input [3:0] a, input [3:0] b, output reg [4:0] s, output reg [3:0] t); \
    always @(posedge clk) begin s <= a + b; t <= $signed(a) >>> 1; end endmodule\n";

const BRANCHES: &str =
    "module g(input clk, input p, input r, input [3:0] k, output reg x, output reg [1:0] z); \
    always @(posedge clk) begin x <= 1'b0; if (p) if (r) x <= 1'b0; else x <= p; \
    casez (k) 4'b1???: z <= 2'd3; 4'b?1??: z <= 2'd2; default: z <= 2'd0; endcase end endmodule\n";

/// A line, a script, a source, and what is left.
type Row = (&'static str, &'static str, &'static str, &'static str);

const ROWS: [Row; 5] = [
    (
        "known a s t.v",
        "reset-script 1\nclock clk\nstep a=15 b=15\nstep a=8\n",
        SUM,
        "0\ncycle 0 s=xxxxx t=xxxx\ncycle 1 s=11110 t=1111\ncycle 2 s=01000 t=1100\n",
    ),
    (
        "known g s t.v",
        "reset-script 1\nclock clk\nstep p=1 k=4\nstep k=12\nstep k=1\n",
        BRANCHES,
        "0\ncycle 0 x=x z=xx\ncycle 1 x=1 z=10\ncycle 2 x=0 z=11\ncycle 3 x=0 z=00\n",
    ),
    ("known k s t.v", NO_CLOCK, INVERTER, "0\ncycle 0\n"),
    (
        "known r s t.v",
        "reset-script 1\nclock clk\nstep rn=0\n",
        ASYNCHRONOUS,
        "0\ncycle 0 q=x\ncycle 1 q=0\n",
    ),
    (
        "known h s t.v",
        "reset-script 2\nclock clk\nstep d=*\nstep d=0\n",
        SHIFT,
        "0\ncycle 0 q2=x q1=x\ncycle 1 q2=x q1=x\ncycle 2 q2=x q1=0\n",
    ),
];

#[test]
fn shows_registers_behind_each_cycle(rt: HostRuntime) -> Result<(), Fail> {
    for (line, script, source, due) in ROWS {
        let left = run_texts(rt.alloc(), line, one(script, source))?;
        assert_eq!(rt; left.as_str(), due, "{script}{source}");
    }
    Ok(())
}

#[test]
fn shows_registers_of_instances(rt: HostRuntime) -> Result<(), Fail> {
    let left = run_texts(rt.alloc(), "known i s t.v u.v", HIERARCHY)?;
    assert_eq!(rt;
        left.as_str(),
        "0\ncycle 0 u0.q=xxx u1.q=xxx\ncycle 1 u0.q=000 u1.q=000\n"
    );
    Ok(())
}
