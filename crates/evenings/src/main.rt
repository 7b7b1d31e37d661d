// Plays each script of the data folder from an empty scheduler, and compares what it writes with what the rules say.
// What it does is the table; `rehearsal` does the rest.
#![tactic(auto)]

use rehearsal::scene::Scene;

static SCENES: [Scene; 3] = [
    Scene {
        title: "an evening of rain",
        script: "rain.script",
        expected: "rain.expected",
    },
    Scene {
        title: "a rehearsal with refusals",
        script: "rehearsal.script",
        expected: "rehearsal.expected",
    },
    Scene {
        title: "a long evening",
        script: "long-evening.script",
        expected: "long-evening.expected",
    },
];

fn main(rt: HostRuntime) -> anyhow::Result<()> {
    for scene in &SCENES {
        scene.rehearse(&rt)?;
    }
    Ok(())
}
