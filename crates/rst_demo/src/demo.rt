// Writes the design of a demonstration.
ghost use Rattle.std.specs.Prelude.{◌≡◌, ◌+◌, ◌++◌, ◌≤◌, ◌<◌, ◌^◌, length, OnOk, IfOk};
ghost use Rattle.rst_demo.specs.Demo.{stage_module, top_opening, opening_lines, wire_line, instance_line, stage_lines, chain_lines, output_line, closing_lines, demo_source, demo_script};

use rst_outside::{Bytes, NoMemory};
use rst_text::Text;
use std::alloc::Global;

// The module of one stage.
fn put_stage_module(text: &mut Text) -> Result<(), NoMemory>
    ensures { OnOk result (text.new ≡ text.old ++ stage_module) }
{
    text.put_line(b"module stage(input clk, input rst, input [7:0] d, output reg [7:0] q);")?;
    text.put_line(b"always @(posedge clk) if (rst) q <= 8'd0; else q <= d + 8'd1;")?;
    text.put_line(b"endmodule")?;
    Ok(())
}

// The top's ports, and the wire of its data input.
fn put_top_opening(text: &mut Text) -> Result<(), NoMemory>
    ensures { OnOk result (text.new ≡ text.old ++ top_opening) }
{
    text.put_line(
        b"module demo(input clk, input rst, input dv, input [7:0] d, output reg v, output [7:0] y);",
    )?;
    text.put_line(b"wire [7:0] w0;")?;
    text.put_line(b"assign w0 = d;")?;
    Ok(())
}

fn put_opening(text: &mut Text) -> Result<(), NoMemory>
    ensures { OnOk result (text.new ≡ text.old ++ opening_lines) }
{
    put_stage_module(text)?;
    put_top_opening(text)
}

// A stage's wire.
fn put_wire(text: &mut Text, number: u64) -> Result<(), NoMemory>
    ensures { OnOk result (text.new ≡ text.old ++ wire_line number) }
{
    text.put(b"wire [7:0] w")?;
    text.put_number(number)?;
    text.put_line(b";")
}

// A stage between the wire in front of it and its own.
fn put_instance(text: &mut Text, before: u64, number: u64) -> Result<(), NoMemory>
    ensures { OnOk result (text.new ≡ text.old ++ instance_line before number) }
{
    text.put(b"stage u")?;
    text.put_number(number)?;
    text.put(b" (clk, rst, w")?;
    text.put_number(before)?;
    text.put(b", w")?;
    text.put_number(number)?;
    text.put_line(b");")
}

fn put_stage(text: &mut Text, before: u64) -> Result<(), NoMemory>
    requires { before < 60 }
    ensures { OnOk result (text.new ≡ text.old ++ stage_lines before (before + 1)) }
{
    put_wire(text, before + 1)?;
    put_instance(text, before, before + 1)
}

// The stages from 1 on.
fn put_chain(text: &mut Text, stages: u32) -> Result<(), NoMemory>
    requires { stages ≤ 60 }
    ensures { OnOk result (text.new ≡ text.old ++ chain_lines stages) }
{
    for before in 0..stages {
        put_stage(text, u64::from(before))?;
    }
    Ok(())
}

fn put_output(text: &mut Text, stages: u32) -> Result<(), NoMemory>
    ensures { OnOk result (text.new ≡ text.old ++ output_line stages) }
{
    text.put(b"assign y = w")?;
    text.put_number(u64::from(stages))?;
    text.put_line(b";")
}

// The valid flag, and the data output behind the last stage.
fn put_closing(text: &mut Text, stages: u32) -> Result<(), NoMemory>
    ensures { OnOk result (text.new ≡ text.old ++ closing_lines stages) }
{
    text.put_line(b"always @(posedge clk) if (rst) v <= 1'b0; else v <= dv;")?;
    put_output(text, stages)?;
    text.put_line(b"endmodule")?;
    Ok(())
}

fn written(alloc: Global, stages: u32) -> Result<Bytes, NoMemory>
    requires { stages ≤ 60 }
    ensures { IfOk result (λ bytes. bytes ≡ demo_source stages) }
{
    let mut text = Text::new(alloc);
    put_opening(&mut text)?;
    put_chain(&mut text, stages)?;
    put_closing(&mut text, stages)?;
    text.finish()
}

/// The source of the demonstration's design, top `demo`: a chain of this many stages, 1 to 60, that
/// each register eight bits of data plus 1, and beside it a registered valid flag. It has
/// 8 * `stages` + 1 register bits, 10 input bits without the clock, and 9 output bits, and is no longer
/// than a source may be (`short`). It is refused for want of memory alone.
pub fn demo_source(alloc: Global, stages: u32) -> Result<Bytes, NoMemory>
    requires { stages ≤ 60 }
    ensures exact { IfOk result (λ bytes. bytes ≡ demo_source stages) }
    ensures short { IfOk result (λ bytes. length bytes ≤ 2 ^ 20) }
{
    written(alloc, stages)
}

/// The demonstration's script: one clock cycle with `rst` at 1. It takes no memory.
pub fn demo_script() -> &'static [u8]
    ensures { result.now ≡ demo_script }
{
    b"reset-script 1\nclock clk\nstep rst=1\n"
}
