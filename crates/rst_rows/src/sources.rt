// Sources that several rows share.
use crate::bench::Texts;

/// A register that a reset clears and that else changes in each cycle.
pub(crate) const TOGGLE: &str = "module t(input clk, input rst, output reg q); \
    always @(posedge clk) if (rst) q <= 1'b0; else q <= ~q; endmodule\n";

/// A gate, without clock and register.
pub(crate) const INVERTER: &str = "module k(input a, output y); assign y = ~a; endmodule\n";

/// Two registers in a row, of which the second is seen.
pub(crate) const SHIFT: &str = "module h(input clk, input d, output reg q2); reg q1; \
    always @(posedge clk) begin q1 <= d; q2 <= q1; end endmodule\n";

/// A register of three bits that a reset clears.
pub(crate) const LOADED: &str = "module m(input clk, input r, input [2:0] d, output reg [2:0] q); \
    always @(posedge clk) if (r) q <= 3'd0; else q <= d; endmodule\n";

/// A register with an asynchronous reset of level 0.
pub(crate) const ASYNCHRONOUS: &str = "module r(input clk, input rn, input d, output reg q); \
    always @(posedge clk or negedge rn) if (!rn) q <= 1'b0; else q <= d; endmodule\n";

/// A register whose width is a parameter.
pub(crate) const LANE: &str = "`timescale 1ns/1ps\n\
    module r #(parameter W = 1) (input clk, input rst, input [W-1:0] d, output reg [W-1:0] q); \
    always @(posedge clk) if (rst) q <= 0; else q <= d; endmodule\n";

/// Two of them in a row.
pub(crate) const LANES: &str = "(* top *) module i(clk, rst, d, y); input clk, rst; \
    input [2:0] d; output [2:0] y; wire [2:0] m; r #(.W(3)) u0 (clk, rst, d, m); \
    r #(3) u1 (.q(y), .clk(clk), .rst(rst), .d(m)); endmodule\n";

/// A script of one cycle with `rst` set.
pub(crate) const RESET: &str = "reset-script 1\nclock clk\nstep rst=1\n";

/// A script without a clock and without cycles.
pub(crate) const NO_CLOCK: &str = "reset-script 1\nnoclock\n";

/// The files of a design in one source.
pub(crate) fn one(script: &'static str, source: &'static str) -> Texts {
    Texts {
        script,
        source,
        other: "",
    }
}

/// The files of the design in two sources.
pub(crate) const HIERARCHY: Texts = Texts {
    script: RESET,
    source: LANE,
    other: LANES,
};
