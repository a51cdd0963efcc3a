#![tactic(auto)]
// Puts the public calls to damaged states and to every limit, as a script on standard input says, and says of each what came back and whether a place changed.
// script.rt has the script's lines.
mod call;
mod script;
mod tries;

use script::Scene;

fn main() {
    let mut buf = [0; 131072];
    let n = io::read_full(0, &mut buf);
    let mut scene = Scene::new();
    for line in buf[..n].split(|b| *b == b'\n') {
        scene.act(line);
    }
}
