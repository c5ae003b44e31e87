use dw_desk::Settings;
use std::alloc::Global;

/// What requests are answered with, beside the desk and its keeper.
#[derive(Drop)]
pub struct Tools<'a, R, U, G> {
    pub rt: &'a R,
    pub alloc: Global,
    pub uids: &'a U,
    pub gate: &'a G,
    pub settings: Settings,
}
