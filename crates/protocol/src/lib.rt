// The three protocols: arq/mod.rs of the reference.
#![tactic(auto)]

#[derive(Clone, Copy)]
pub enum ProtocolType {
    StopAndWait,
    GoBackN,
    SelectiveRepeat,
}
