// The exit status that the end of a download names.
ghost use Rattle.std.specs.Prelude.{◌≡◌};
ghost use Rattle.run_report.specs.Endings as specs;

use dl_kinds::ExitStatus;
use machine_core::End;

/// The number of the exit status that the end of a download names: that of a dead piece is the one of its last mark.
pub fn code_of_end(end: &End) -> u8
    ensures { result ≡ specs.code_of_end end.now }
{
    match end {
        End::Complete => ExitStatus::Done.code(),
        End::Dead { mark, .. } => mark.code.0,
        End::Disk { .. } => ExitStatus::FileIo.code(),
        End::Exists { .. } => ExitStatus::Exists.code(),
        End::PieceLength { .. } => ExitStatus::PieceLength.code(),
        End::Length { .. } | End::InfoHash | End::Unreadable { .. } | End::TooLarge { .. } => {
            ExitStatus::Unusable.code()
        }
        End::SameFile { .. } => ExitStatus::SameFile.code(),
        End::SameHash { .. } => ExitStatus::SameHash.code(),
        End::Checksum => ExitStatus::Checksum.code(),
    }
}

/// .. and 0 without one.
pub fn code_by(end: Option<End>) -> u8
    ensures { result ≡ specs.code_by end }
{
    match end {
        Some(end) => code_of_end(&end),
        None => 0,
    }
}
