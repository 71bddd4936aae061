// Examples of what the containers and the searches answer; what this prints is compared with the file `stdout`.
#![tactic(auto)]

mod containers;
mod drawing;
mod layers;
mod lines;
mod outputs;
mod searches;
mod soak;
mod steps;

fn main(rt: HostRuntime) -> anyhow::Result<()> {
    containers::containers(&rt)?;
    searches::searches(&rt)?;
    outputs::outputs(&rt)?;
    lines::lines(&rt)?;
    layers::layers(&rt)?;
    soak::soak(&rt)
}
