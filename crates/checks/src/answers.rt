// Answers under way: how far they go, and what ends them.
use crate::bench::Bench;
use crate::commands::{F, G, LOAD_ONE, LOAD_TWO, NAMES, SHOW_F, SHOW_G, UNDO};
use std::test::*;

#[test]
fn one_function_from_a_fresh_memory(rt: HostRuntime) -> Result<(), Fail> {
    let mut bench = Bench::fresh(rt.alloc())?;
    bench.does(NAMES)?;
    bench.refuses(SHOW_F, 3)?;
    bench.does(LOAD_ONE)?;
    bench.shows(SHOW_F, F)?;
    bench.shows(NAMES, b"f")?;
    bench.refuses(UNDO, 9)
}

#[test]
fn nothing_to_go_on_with(rt: HostRuntime) -> Result<(), Fail> {
    let mut bench = Bench::fresh(rt.alloc())?;
    bench.is_idle()?;
    bench.does(LOAD_ONE)?;
    bench.is_idle()?;
    bench.shows(SHOW_F, F)?;
    bench.ends()?;
    bench.is_idle()
}

#[test]
fn a_refused_command_ends_the_rows(rt: HostRuntime) -> Result<(), Fail> {
    let mut bench = Bench::fresh(rt.alloc())?;
    bench.does(LOAD_TWO)?;
    bench.shows(NAMES, b"f")?;
    bench.refuses(UNDO, 9)?;
    bench.is_idle()?;
    bench.shows(NAMES, b"f")?;
    bench.refuses(b"no command", 1)?;
    bench.is_idle()
}

#[test]
fn rows_go_on_with_the_new_command(rt: HostRuntime) -> Result<(), Fail> {
    let mut bench = Bench::fresh(rt.alloc())?;
    bench.does(LOAD_TWO)?;
    bench.shows(NAMES, b"f")?;
    bench.shows(SHOW_G, G)?;
    bench.ends()?;
    bench.shows(NAMES, b"f")?;
    bench.shows(NAMES, b"f")?;
    bench.goes_on_with(b"g")?;
    bench.ends()
}
