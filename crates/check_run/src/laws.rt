// The limits and exit statuses as numbers.
ghost use Rattle.std.specs.Prelude.{◌≡◌};
ghost use Rattle.check_run.specs.declared.limits.TheConstants.{MAX_CHECK_THREADS};
ghost use Rattle.machine_core.specs.declared.ends.End.TheVariants as download;
ghost use Rattle.run_report.specs.Endings.{code_of_ending};
ghost use Rattle.run_report.specs.declared.endings.MetainfoFault.TheVariants as fault;
ghost use Rattle.run_report.specs.declared.endings.RunEnding.TheVariants as ending;

/// The most threads that hash at once. It does nothing when it runs.
pub fn limits_are_told()
    ensures { MAX_CHECK_THREADS ≡ 16 }
{}

/// The exit statuses of checks. It does nothing when it runs.
pub fn checks_have_statuses()
    ensures whole { code_of_ending ending.Done ≡ 0 }
    ensures wrong { code_of_ending (ending.Failed download.Checksum) ≡ 32 }
    ensures disk { code_of_ending (ending.Failed (download.Disk 1)) ≡ 17 }
    ensures missing { code_of_ending (ending.NoMetainfo fault.Missing) ≡ 3 }
    ensures unread { code_of_ending (ending.NoMetainfo fault.Unread) ≡ 17 }
    ensures no_bencode { code_of_ending (ending.NoMetainfo fault.NotBencode) ≡ 25 }
    ensures unusable { code_of_ending (ending.NoMetainfo fault.Unusable) ≡ 26 }
    ensures too_long { code_of_ending (ending.NoMetainfo fault.TooLong) ≡ 26 }
    ensures memory { code_of_ending ending.NoMemory ≡ 40 }
    ensures output { code_of_ending ending.SinkFault ≡ 41 }
{}
