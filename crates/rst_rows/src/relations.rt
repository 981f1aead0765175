// Rows of `check` where three values leave a register unknown: signed by a relation, refuted, or unknown.
use crate::bench::run_texts;
use crate::sources::{ASYNCHRONOUS, SHIFT, TOGGLE, one};
use std::test::Fail;

/// A line, a script, a source, and what the texts that are left begin with.
type Row = (&'static str, &'static str, &'static str, &'static str);

const HIDDEN: &str =
    "module g(input clk, output y); reg q; always @(posedge clk) q <= ~q; assign y = 1'b0; endmodule\n";

const SELF_XOR: &str =
    "module x(input clk, output y); reg q; always @(posedge clk) q <= ~q; assign y = q ^ q; endmodule\n";

const GUARDED: &str = "module p(input clk, input rst, input en, input [3:0] d, output [3:0] o); \
    reg v; reg [3:0] q; \
    always @(posedge clk) begin if (rst) v <= 1'b0; else v <= en; q <= d; end \
    assign o = v ? q : 4'd0; endmodule\n";

const HELD: &str = "module r(input clk, input rn, output reg q); \
    always @(posedge clk or negedge rn) if (!rn) q <= 1'b0; else q <= q; endmodule\n";

const STILL: &str = "reset-script 1\nclock clk\n";

const SIGNED: [Row; 5] = [
    (
        "check g s c t.v",
        STILL,
        HIDDEN,
        "0 decided\nSIGNED relation\ndesign g registers 1 inputs 0 outputs 1\nsequence 0\n",
    ),
    (
        "check x s c t.v",
        STILL,
        SELF_XOR,
        "0 decided\nSIGNED relation\ndesign x registers 1 inputs 0 outputs 1\nsequence 0\n",
    ),
    (
        "check h s c t.v",
        "reset-script 2\nclock clk\nstep d=* x2\n",
        SHIFT,
        "0 decided\nSIGNED relation\ndesign h registers 2 inputs 1 outputs 1\nsequence 2\ncycle 0 d=-\ncycle 1 d=-\n",
    ),
    (
        "check p s c t.v",
        "reset-script 2\nclock clk\nstep rst=1 d=*\n",
        GUARDED,
        "0 decided\nSIGNED relation\ndesign p registers 5 inputs 6 outputs 4\nsequence 1\ncycle 0 rst=1 en=0 d=----\n",
    ),
    (
        "check r s c t.v",
        "reset-script 2\nclock clk\nstep rn=* d=1\n",
        ASYNCHRONOUS,
        "0 decided\nSIGNED relation\ndesign r registers 1 inputs 2 outputs 1\nsequence 1\ncycle 0 rn=- d=1\n",
    ),
];

const REFUTED: [Row; 5] = [
    (
        "check t s c t.v",
        "reset-script 1\nclock clk\nstep rst=0\n",
        TOGGLE,
        "10 decided\nREFUTED\ndesign t registers 1 inputs 1 outputs 1\nsequence 1\ncycle 0 rst=0\na q=",
    ),
    (
        "check h s c t.v",
        "reset-script 1\nclock clk\nstep d=0\n",
        SHIFT,
        "10 decided\nREFUTED\ndesign h registers 2 inputs 1 outputs 1\nsequence 1\ncycle 0 d=0\na ",
    ),
    (
        "check h s c t.v",
        "reset-script 2\nclock clk\nstep d=*\n",
        SHIFT,
        "10 decided\nREFUTED\ndesign h registers 2 inputs 1 outputs 1\nsequence 1\ncycle 0 d=",
    ),
    (
        "check t s c t.v",
        "reset-script 2\nclock clk\nstep rst=*\n",
        TOGGLE,
        "10 decided\nREFUTED\ndesign t registers 1 inputs 1 outputs 1\nsequence 1\ncycle 0 rst=0\n",
    ),
    (
        "check r s c t.v",
        STILL,
        HELD,
        "10 decided\nREFUTED\ndesign r registers 1 inputs 1 outputs 1\nsequence 0\na q=",
    ),
];

const UNKNOWN: [Row; 2] = [
    (
        "check g s c t.v",
        "reset-script 1\nclock clk\nbudget 0\n",
        HIDDEN,
        "13 decided\nUNKNOWN\n",
    ),
    (
        "check p s c t.v",
        "reset-script 2\nclock clk\nbudget 5\nstep rst=1 d=*\n",
        GUARDED,
        "13 decided\nUNKNOWN\n",
    ),
];

#[test]
fn signs_by_a_relation(rt: HostRuntime) -> Result<(), Fail> {
    for (line, script, source, due) in SIGNED {
        let left = run_texts(rt.alloc(), line, one(script, source))?;
        assert!(rt; left.as_str().starts_with(due), "{script}{source}{left}");
    }
    Ok(())
}

#[test]
fn refutes_with_two_states(rt: HostRuntime) -> Result<(), Fail> {
    for (line, script, source, due) in REFUTED {
        let left = run_texts(rt.alloc(), line, one(script, source))?;
        assert!(rt; left.as_str().starts_with(due), "{script}{source}{left}");
    }
    Ok(())
}

#[test]
fn spends_its_budget(rt: HostRuntime) -> Result<(), Fail> {
    for (line, script, source, due) in UNKNOWN {
        let left = run_texts(rt.alloc(), line, one(script, source))?;
        assert!(rt; left.as_str().starts_with(due), "{script}{source}{left}");
    }
    Ok(())
}
