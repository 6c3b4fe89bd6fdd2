// The top record of the DRC and loudness body and the rows of tables 9 to 12, with their constructors, so that a caller needs one crate.
pub use downmixes::rows::{DOWNMIX_COLUMNS, DownmixDefinition};
pub use drc_kind::rows::{DrcLoudnessInfo, Info, MpegH3dAudioDrcLoudness, TOP_COLUMNS};
pub use instructions::rows::{
    ADDITIONAL_COLUMNS, DrcInstructions, INSTRUCTION_COLUMNS, LimiterPeakTarget,
};
pub use loudness::rows::{ENTRY_COLUMNS, LoudnessInfoEntry};
pub use scopes::rows::DrcScope;
pub use target_loudness::rows::{DrcTargetLoudness, TargetLoudnessLower};
