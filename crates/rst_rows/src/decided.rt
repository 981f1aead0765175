// Rows of `check` that sign, with their certificates, and of `demo`.
use crate::bench::run_texts;
use crate::sources::{
    ASYNCHRONOUS, HIERARCHY, INVERTER, LOADED, NO_CLOCK, RESET, SHIFT, TOGGLE, one,
};
use std::test::Fail;

/// A line, a script, a source, and what is left.
type Row = (&'static str, &'static str, &'static str, &'static str);

const TOGGLE_LEFT: &str = "0 decided\n\
    SIGNED known\ndesign t registers 1 inputs 1 outputs 1\nsequence 1\ncycle 0 rst=1\n\
    reset-certificate 1\nform 2\nclock clk\nregisters 1\ninputs 1\noutputs 1\nknown\nsequence 1\nstep =1\nend\n";

const TOGGLE_JSON: &str = "0 decided\n\
    {\"design\":\"t\",\"inputs\":1,\"method\":\"known\",\"outputs\":1,\"registers\":1,\"sequence\":[{\"rst\":\"1\"}],\
    \"verdict\":\"SIGNED\"}\n\
    reset-certificate 1\nform 2\nclock clk\nregisters 1\ninputs 1\noutputs 1\nknown\nsequence 1\nstep =1\nend\n";

const WIDE: &str = "module w(input clk, input rst, output co); reg [63:0] n; \
    always @(posedge clk) if (rst) n <= 0; else n <= n + 1; assign co = &n; endmodule\n";

const BITS: &str = "module o(input a, output y); wire [1:0] c; \
    assign c[0] = a; assign c[1] = c[0]; assign y = c[1]; endmodule\n";

const SIGNED: [Row; 10] = [
    ("check t s c t.v", RESET, TOGGLE, TOGGLE_LEFT),
    (
        "check t s c t.v",
        "reset-script 1\nclock clk\nbudget 0\nstep rst=1\n",
        TOGGLE,
        TOGGLE_LEFT,
    ),
    (
        "check t s c t.v",
        "reset-script 1\nclock clk\nreport json\nstep rst=1\n",
        TOGGLE,
        TOGGLE_JSON,
    ),
    (
        "check k s c t.v",
        NO_CLOCK,
        INVERTER,
        "0 decided\nSIGNED known\ndesign k registers 0 inputs 1 outputs 1\nsequence 0\n\
        reset-certificate 1\nform 2\nnoclock\nregisters 0\ninputs 1\noutputs 1\nknown\nsequence 0\nend\n",
    ),
    (
        "check h s c t.v",
        "reset-script 1\nclock clk\nstep d=0 x2\n",
        SHIFT,
        "0 decided\nSIGNED known\ndesign h registers 2 inputs 1 outputs 1\nsequence 2\ncycle 0 d=0\ncycle 1 d=0\n\
        reset-certificate 1\nform 2\nclock clk\nregisters 2\ninputs 1\noutputs 1\nknown\nsequence 2\nstep =0\nstep =0\nend\n",
    ),
    (
        "check w s c t.v",
        RESET,
        WIDE,
        "0 decided\nSIGNED known\ndesign w registers 64 inputs 1 outputs 1\nsequence 1\ncycle 0 rst=1\n\
        reset-certificate 1\nform 2\nclock clk\nregisters 64\ninputs 1\noutputs 1\nknown\nsequence 1\nstep =1\nend\n",
    ),
    (
        "check o s c t.v",
        NO_CLOCK,
        BITS,
        "0 decided\nSIGNED known\ndesign o registers 0 inputs 1 outputs 1\nsequence 0\n\
        reset-certificate 1\nform 2\nnoclock\nregisters 0\ninputs 1\noutputs 1\nknown\nsequence 0\nend\n",
    ),
    (
        "check r s c t.v",
        "reset-script 1\nclock clk\nstep rn=0\n",
        ASYNCHRONOUS,
        "0 decided\nSIGNED known\ndesign r registers 1 inputs 2 outputs 1\nsequence 1\ncycle 0 rn=0 d=0\n\
        reset-certificate 1\nform 2\nclock clk\nregisters 1\ninputs 2\noutputs 1\nknown\nsequence 1\nstep =00\nend\n",
    ),
    (
        "check m s c t.v",
        "reset-script 2\nclock clk\nstep r=1 d=*\n",
        LOADED,
        "0 decided\nSIGNED known\ndesign m registers 3 inputs 4 outputs 3\nsequence 1\ncycle 0 r=1 d=---\n\
        reset-certificate 2\nform 2\nclock clk\nregisters 3\ninputs 4\noutputs 3\nknown\nsequence 1\nstep =1---\nend\n",
    ),
    (
        "check m s c t.v",
        "reset-script 2\nclock clk\nreport json\nstep r=1 d=*\n",
        LOADED,
        "0 decided\n\
        {\"design\":\"m\",\"inputs\":4,\"method\":\"known\",\"outputs\":3,\"registers\":3,\
        \"sequence\":[{\"d\":\"---\",\"r\":\"1\"}],\"verdict\":\"SIGNED\"}\n\
        reset-certificate 2\nform 2\nclock clk\nregisters 3\ninputs 4\noutputs 3\nknown\nsequence 1\nstep =1---\nend\n",
    ),
];

#[test]
fn signs_what_three_values_know(rt: HostRuntime) -> Result<(), Fail> {
    for (line, script, source, due) in SIGNED {
        let left = run_texts(rt.alloc(), line, one(script, source))?;
        assert_eq!(rt; left.as_str(), due, "{script}{source}");
    }
    Ok(())
}

#[test]
fn signs_a_design_in_two_files_twice_alike(rt: HostRuntime) -> Result<(), Fail> {
    for _ in 0..2 {
        let left = run_texts(rt.alloc(), "check i s c t.v u.v", HIERARCHY)?;
        assert_eq!(rt;
            left.as_str(),
            "0 decided\nSIGNED known\ndesign i registers 6 inputs 4 outputs 3\nsequence 1\ncycle 0 rst=1 d=000\n\
            reset-certificate 1\nform 2\nclock clk\nregisters 6\ninputs 4\noutputs 3\nknown\nsequence 1\nstep =1000\nend\n"
        );
    }
    Ok(())
}

const DEMOS: [(&str, &str); 2] = [
    (
        "demo 1",
        "0 decided\ndemo 1\nSIGNED known\ndesign demo registers 9 inputs 10 outputs 9\nsequence 1\n\
        cycle 0 rst=1 dv=0 d=00000000\n",
    ),
    (
        "demo 60",
        "0 decided\ndemo 60\nSIGNED known\ndesign demo registers 481 inputs 10 outputs 9\nsequence 1\n\
        cycle 0 rst=1 dv=0 d=00000000\n",
    ),
];

#[test]
fn signs_made_designs(rt: HostRuntime) -> Result<(), Fail> {
    for (line, due) in DEMOS {
        let left = run_texts(rt.alloc(), line, one("", ""))?;
        assert_eq!(rt; left.as_str(), due, "{line}");
    }
    Ok(())
}
