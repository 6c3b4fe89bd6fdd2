// The top record of the scene body and the rows of tables 1 to 5, with their constructors, so that a caller needs one crate.
pub use conditions::rows::{
    CONDITION_COLUMNS, PresetCondition, PresetConditionDetail, PresetGain, PresetPosition,
};
pub use presets::rows::{GroupPreset, PRESET_COLUMNS};
pub use scene_groups::rows::{
    ContentLanguage, GROUP_COLUMNS, GainInteractivity, PositionInteractivity, SceneGroup,
};
pub use scene_kind::rows::{MpegH3dAudioScene, Section, TOP_COLUMNS};
pub use switch_groups::rows::{
    MEMBER_COLUMNS, SWITCH_GROUP_COLUMNS, SwitchGroup, SwitchGroupMember,
};
