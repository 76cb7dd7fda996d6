use shard_disk::{Damage, FormatFault, Why};
use std::test::Fail;

#[test]
fn damage_is_told_in_one_line(rt: HostRuntime) -> Result<(), Fail> {
    let alloc = rt.alloc();
    let sum = Damage {
        file: 3,
        offset: 5,
        why: Why::Sum {
            stored: 1,
            computed: 0xCAFE,
        },
    };
    let text = format!(in alloc; "{}", FormatFault::Damaged(sum))?;
    assert_eq!(rt;
        text.as_str(),
        "file 3, offset 5: checksum 00000001 is stored, 0000cafe computed"
    );
    let missing = Damage {
        file: 0,
        offset: 0,
        why: Why::NoManifest,
    };
    let text = format!(in alloc; "{missing}")?;
    assert_eq!(rt; text.as_str(), "file 0, offset 0: no manifest");
    Ok(())
}
