// Gates of small texts, worked by hand.
use crate::texts::{cycle, gates_of, told};
use std::test::Fail;

#[test]
fn equal_gates_stand_once(rt: HostRuntime) -> Result<(), Fail> {
    let text = "module t(input a, b, output y); assign y = (a & b) ^ (b & a); endmodule";
    let gates = gates_of(rt.alloc(), text, None)?;
    let line = told(rt.alloc(), &gates)?;
    assert_eq!(rt; line.as_str(), "and 1 2, xor 3 3, outs 4, nexts");
    Ok(())
}

#[test]
fn a_bit_and_itself_differ_in_nothing_that_is_known(rt: HostRuntime) -> Result<(), Fail> {
    let text = "module t(input a, output y); assign y = a ^ a; endmodule";
    let gates = gates_of(rt.alloc(), text, None)?;
    for (input, shown) in [("0", "0 "), ("1", "0 "), ("x", "x ")] {
        let seen = cycle(rt.alloc(), &gates, "", input)?;
        assert_eq!(rt; seen.as_str(), shown, "{input}");
    }
    Ok(())
}

#[test]
fn a_signed_sum_with_unknown_bits(rt: HostRuntime) -> Result<(), Fail> {
    let text =
        "module t(input signed [1:0] a, b, output signed [2:0] y); assign y = a + b; endmodule";
    let gates = gates_of(rt.alloc(), text, None)?;
    let rows = [
        ("1011", "101 "),
        ("0101", "010 "),
        ("x000", "xx0 "),
        ("0x10", "11x "),
        ("0x01", "0xx "),
    ];
    for (input, shown) in rows {
        let seen = cycle(rt.alloc(), &gates, "", input)?;
        assert_eq!(rt; seen.as_str(), shown, "{input}");
    }
    Ok(())
}

#[test]
fn a_shift_with_unknown_bits(rt: HostRuntime) -> Result<(), Fail> {
    let text =
        "module t(input signed [2:0] a, input n, output signed [2:0] y); assign y = a >>> n; endmodule";
    let gates = gates_of(rt.alloc(), text, None)?;
    let rows = [
        ("1x00", "1x0 "),
        ("1x01", "11x "),
        ("1x0x", "1xx "),
        ("110x", "11x "),
    ];
    for (input, shown) in rows {
        let seen = cycle(rt.alloc(), &gates, "", input)?;
        assert_eq!(rt; seen.as_str(), shown, "{input}");
    }
    Ok(())
}

#[test]
fn a_case_in_a_wider_context_holds_its_bit(rt: HostRuntime) -> Result<(), Fail> {
    let text = "module t(input clk, input [1:0] s, output reg q);\n\
        always @(posedge clk) case (~s) 0: q <= 0; 1: q <= 0; 2: q <= 0; 3: q <= 0; endcase endmodule";
    let gates = gates_of(rt.alloc(), text, Some("clk"))?;
    for (state, input, shown) in [("0", "00", "0 0"), ("1", "10", "1 1"), ("1", "xx", "1 1")] {
        let seen = cycle(rt.alloc(), &gates, state, input)?;
        assert_eq!(rt; seen.as_str(), shown, "{state} {input}");
    }
    Ok(())
}

#[test]
fn the_mux_of_a_reset_comes_first(rt: HostRuntime) -> Result<(), Fail> {
    let text = "module t(input clk, r, d, output reg q);\n\
        always @(posedge clk or posedge r) if (r) q <= 1'b0; else q <= d; endmodule";
    let gates = gates_of(rt.alloc(), text, Some("clk"))?;
    let line = told(rt.alloc(), &gates)?;
    assert_eq!(rt; line.as_str(), "mux 1 0 3, mux 1 0 2, outs 4, nexts 5");
    Ok(())
}

#[test]
fn a_reset_forces_what_is_read(rt: HostRuntime) -> Result<(), Fail> {
    let text = "module t(input clk, rn, input [1:0] d, output reg [1:0] q);\n\
        always @(posedge clk or negedge rn) if (!rn) q <= 2'b10; else q <= d; endmodule";
    let gates = gates_of(rt.alloc(), text, Some("clk"))?;
    for (state, input, shown) in [
        ("xx", "001", "10 10"),
        ("01", "111", "01 11"),
        ("x1", "x11", "xx 1x"),
    ] {
        let seen = cycle(rt.alloc(), &gates, state, input)?;
        assert_eq!(rt; seen.as_str(), shown, "{state} {input}");
    }
    Ok(())
}
