// The demonstration's design.
use rst_demo::{demo_script, demo_source};
use std::test::Fail;

// The design with one stage, whole.
#[test]
fn one_stage(rt: HostRuntime) -> Result<(), Fail> {
    let source = demo_source(rt.alloc(), 1)?;
    assert!(rt;
        source.as_slice()
            == b"module stage(input clk, input rst, input [7:0] d, output reg [7:0] q);
always @(posedge clk) if (rst) q <= 8'd0; else q <= d + 8'd1;
endmodule
module demo(input clk, input rst, input dv, input [7:0] d, output reg v, output [7:0] y);
wire [7:0] w0;
assign w0 = d;
wire [7:0] w1;
stage u1 (clk, rst, w0, w1);
always @(posedge clk) if (rst) v <= 1'b0; else v <= dv;
assign y = w1;
endmodule
"
                .as_slice()
    );
    Ok(())
}

// The largest design: its length, and its last stage.
#[test]
fn sixty_stages(rt: HostRuntime) -> Result<(), Fail> {
    let source = demo_source(rt.alloc(), 60)?;
    let text = source.as_slice();
    assert_eq!(rt; text.len(), 3_188);
    assert!(rt;
        text.ends_with(
            b"wire [7:0] w60;
stage u60 (clk, rst, w59, w60);
always @(posedge clk) if (rst) v <= 1'b0; else v <= dv;
assign y = w60;
endmodule
"
        )
    );
    Ok(())
}

// One cycle of reset.
#[test]
fn script(rt: HostRuntime) -> Result<(), Fail> {
    assert!(rt; demo_script() == b"reset-script 1\nclock clk\nstep rst=1\n".as_slice());
    Ok(())
}
