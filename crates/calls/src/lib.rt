// What the public calls answer, where they do not refuse. Places count from the section's start. What each call answers to which
// section is in specs/.
#![tactic(auto)]

use material_animation::Shift;
use pattern::{PaletteIdx, TextureIdx};

// What a pattern chooses.
#[derive(Clone, Copy)]
pub struct Choice {
    pub texture: TextureIdx,
    pub palette: PaletteIdx,
}

// A material: the shift of its texture, and its texture and palette if a pattern chooses them.
#[derive(Clone, Copy)]
pub struct Material {
    pub shift: Shift,
    pub choice: Option<Choice>,
}
