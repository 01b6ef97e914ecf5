// How far a talk has come.
ghost use Rattle.std.specs.Prelude.{◌≡◌, ◌↔◌, IsTrue};
ghost use Rattle.ftp_link.specs.declared.stage.TalkStage.TheVariants.{Over};

use ftp_steps::FtpStep;

/// How far a talk has come.
#[derive(Clone, Copy, Debug, PartialEq, Eq)]
pub(crate) enum TalkStage {
    /// Nothing was dialled yet.
    Silent,
    /// The reply at this step is due.
    Hearing(FtpStep),
    /// The data is due.
    Taking,
    /// All came.
    Over,
}

impl TalkStage {
    pub fn is_over(self) -> bool
        ensures { IsTrue result ↔ self ≡ Over }
    {
        match self {
            TalkStage::Over => true,
            TalkStage::Silent | TalkStage::Hearing(_) | TalkStage::Taking => false,
        }
    }
}
