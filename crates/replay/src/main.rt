// Replays sessions, from standard input or from the files named as arguments: each line is a command in hex,
// `-` one of no bytes; blank lines and lines that begin with # are skipped. Prints what the machine answers.
#![tactic(auto)]

mod fault;
mod output;
mod player;

use fault::{Fault, Stop};
use player::Player;
use std::env;
use std::fs::File;
use std::io::{BufRead, BufReader, Read};
use std::process::ExitCode;

fn play_lines<R: Read + Drop>(player: &mut Player, source: R) -> Result<(), Stop> {
    player.start();
    let mut input = BufReader::new(player.heap(), source)?;
    let mut line = Vec::new(player.heap());
    // Nothing says that an input ends, so its lines are counted. Not `split`: it takes new memory for each line, and
    // one of 131,072 digits then takes half as long again.
    for _ in 0..u64::MAX {
        line.clear();
        let len = input
            .read_until(b'\n', &mut line)
            .map_err(Stop::Unreadable)?;
        if len == 0 {
            break;
        }
        player.play_line(line.as_slice())?;
    }
    Ok(())
}

fn play_file(rt: &HostRuntime, player: &mut Player, name: &str) -> Result<(), Stop> {
    let file = File::open(rt, name).map_err(Stop::Unreadable)?;
    play_lines(player, file)
}

fn play_all(rt: &HostRuntime, player: &mut Player) -> Result<(), Fault> {
    let args = env::args(rt)?;
    if args.len() < 2 {
        return play_lines(player, rt.stdin()).map_err(Fault::Input);
    }
    for name in args.skip(1) {
        play_file(rt, player, name.as_str()).map_err(|stop| Fault::File { name, stop })?;
    }
    Ok(())
}

fn replay(rt: &HostRuntime) -> Result<(), Fault> {
    let mut player = Player::new(rt.alloc(), rt.stdout())?;
    let played = play_all(rt, &mut player);
    // What was printed before a fault stands before its message.
    player.flush()?;
    played
}

fn main(rt: HostRuntime) -> ExitCode {
    match replay(&rt) {
        Ok(()) => ExitCode::SUCCESS,
        Err(fault) => {
            let _ = eprintln!(rt; "replay: {fault}");
            ExitCode::FAILURE
        }
    }
}
