// Rows of refusals, each with the place of the word of the file that it is about.
use crate::bench::run_texts;
use crate::sources::{LOADED, NO_CLOCK, RESET, TOGGLE, one};
use std::test::Fail;

/// A line, a script, a source, and what is left.
type Row = (&'static str, &'static str, &'static str, &'static str);

const SCRIPTS: [Row; 9] = [
    (
        "check t s c t.v",
        "reset-script 1\nclock clk\nstep rst=1 x129\n",
        TOGGLE,
        "5 file 2\nrejected TooMany s 3\n",
    ),
    (
        "check t s c t.v",
        "reset-script 1\nclock clk\nstep rst=2\n",
        TOGGLE,
        "5 file 2\nrejected BadValue s 3\n",
    ),
    (
        "check t s c t.v",
        "reset-script 1\nclock clk\nstep rst=1 rst=0\n",
        TOGGLE,
        "5 file 2\nrejected Repeated s 3\n",
    ),
    (
        "check t s c t.v",
        "reset-script 1\nclock clk\nstep clk=1\n",
        TOGGLE,
        "5 file 2\nrejected BadName s 3\n",
    ),
    (
        "known t s t.v",
        "reset-script 1\nclock clk\nstep rst\n",
        TOGGLE,
        "5 file 2\nrejected BadLine s 3\n",
    ),
    // The script's text is read before the design, and its ports behind it.
    (
        "check t s c t.v",
        "reset-script 1\nclock clk\nstep rst\n",
        "module t(",
        "5 file 2\nrejected BadLine s 3\n",
    ),
    (
        "check t s c t.v",
        "reset-script 1\nclock clk\nstep no=1\n",
        "module t(",
        "5 file 4\nrejected NoTree t.v 1\n",
    ),
    // A free bit needs the second version, and there are few of them.
    (
        "check m s c t.v",
        "reset-script 1\nclock clk\nstep d=*\n",
        LOADED,
        "5 file 2\nrejected BadLine s 3\n",
    ),
    (
        "check v s c t.v",
        "reset-script 2\nclock clk\nstep d=* x33\n",
        "module v(input clk, input [31:0] d, output reg [31:0] q); always @(posedge clk) q <= d; endmodule\n",
        "5 file 2\nrejected TooFree s 3\n",
    ),
];

const TEXTS: [Row; 6] = [
    (
        "check e s c t.v",
        NO_CLOCK,
        "module e(output y);\nassign y = 8'hG; endmodule\n",
        "5 file 4\nrejected BadNumber t.v 2\n",
    ),
    (
        "check e s c t.v",
        NO_CLOCK,
        "module e(output y);\nassign y = 72'h0; endmodule\n",
        "5 file 4\nrejected NumberTooWide t.v 2\n",
    ),
    (
        "check e s c t.v",
        NO_CLOCK,
        "module e(output y);\ninitial y = 0; endmodule\n",
        "5 file 4\nrejected Unsupported t.v initial 2\n",
    ),
    (
        "check e s c t.v",
        NO_CLOCK,
        "module e(output y);\nassign y = ; endmodule\n",
        "5 file 4\nrejected NoTree t.v 1\n",
    ),
    (
        "known e s t.v u.v",
        NO_CLOCK,
        "module e(output y);\nassign y = ; endmodule\n",
        "5 file 3\nrejected NoTree t.v 1\n",
    ),
    (
        "check e s c t.v",
        NO_CLOCK,
        "module e(output y);\nassign y = z; endmodule\n",
        "5\nrejected NoName z 1\n",
    ),
];

const LATCH: &str = "module l(input clk, input e, input d, output reg q); \
    always @* if (e) q = d; endmodule\n";

const LOOP: &str =
    "module o(input a, output y); wire [1:0] c; assign c = c; assign y = c[1]; endmodule\n";

const TOO_WIDE: &str = "module w(input clk, input rst, output co); reg [64:0] n; \
    always @(posedge clk) if (rst) n <= 0; else n <= n + 1; assign co = &n; endmodule\n";

const TWO_SOURCES: &str = "reset-script 1\nclock clk\nstep no=1\n";

const DESIGNS: [Row; 9] = [
    ("check t s c t.v", RESET, "", "5\nrejected NoTop\n"),
    (
        "check t s c t.v t.v",
        RESET,
        TOGGLE,
        "5\nrejected TwoModules t\n",
    ),
    (
        "check t s c t.v",
        NO_CLOCK,
        TOGGLE,
        "5\nrejected ClockMisused clk\n",
    ),
    (
        "check t s c t.v",
        "reset-script 1\nclock ck\n",
        TOGGLE,
        "5\nrejected ClockMissing ck\n",
    ),
    (
        "check w s c t.v",
        RESET,
        TOO_WIDE,
        "5\nrejected TooWide n\n",
    ),
    (
        "check l s c t.v",
        "reset-script 1\nclock clk\n",
        LATCH,
        "5\nrejected Latch q\n",
    ),
    ("check o s c t.v", NO_CLOCK, LOOP, "5\nrejected Loop c\n"),
    // The design is tested whole before the script's ports.
    (
        "check l s c t.v",
        TWO_SOURCES,
        LATCH,
        "5\nrejected Latch q\n",
    ),
    (
        "check t s c t.v",
        TWO_SOURCES,
        TOGGLE,
        "5 file 2\nrejected BadName s 3\n",
    ),
];

#[test]
fn refuses_scripts(rt: HostRuntime) -> Result<(), Fail> {
    for (line, script, source, due) in SCRIPTS {
        let left = run_texts(rt.alloc(), line, one(script, source))?;
        assert_eq!(rt; left.as_str(), due, "{script}{source}");
    }
    Ok(())
}

#[test]
fn refuses_texts(rt: HostRuntime) -> Result<(), Fail> {
    for (line, script, source, due) in TEXTS {
        let left = run_texts(rt.alloc(), line, one(script, source))?;
        assert_eq!(rt; left.as_str(), due, "{script}{source}");
    }
    Ok(())
}

#[test]
fn refuses_designs(rt: HostRuntime) -> Result<(), Fail> {
    for (line, script, source, due) in DESIGNS {
        let left = run_texts(rt.alloc(), line, one(script, source))?;
        assert_eq!(rt; left.as_str(), due, "{script}{source}");
    }
    Ok(())
}
