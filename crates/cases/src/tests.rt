//! Case files that aren't read.
use crate::reading::read_cases;
use case_files::CaseFault;
use std::test::Fail;

#[test]
fn faults_have_lines(rt: HostRuntime) -> Result<(), Fail> {
    let table = [
        ("\nframe\n", 2, CaseFault::UnknownLine),
        ("case a\nwords b\ninput\n*5\n", 4, CaseFault::UnknownLine),
        ("case a\nstatus 0\n", 2, CaseFault::OutOfPlace),
        ("case a\nwords b\noutput\ninput\n", 4, CaseFault::OutOfPlace),
        ("case a\nwords b\nthen c\n", 3, CaseFault::OutOfPlace),
        ("case a\n|b\n", 2, CaseFault::NoSection),
        ("case a\nwords b\nstatus 256\n", 3, CaseFault::BadNumber),
        ("text a\n*|b\n", 2, CaseFault::BadNumber),
        ("text a\n%4 41\n", 2, CaseFault::BadBytes),
        ("text a\n@b\n", 2, CaseFault::UnknownText),
        ("case a\nwords b\ncase c\n", 3, CaseFault::NoStatus),
        ("case a\nwords b\n\n", 3, CaseFault::NoStatus),
    ];
    for (text, line, fault) in table {
        match read_cases(rt.alloc(), text) {
            Ok(_) => assert!(rt; false, "read {text:?}"),
            Err(refused) => {
                assert_eq!(rt; refused.line, line);
                assert_eq!(rt; refused.fault, fault);
            }
        }
    }
    Ok(())
}
