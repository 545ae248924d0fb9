// Weights that are refused, with the place of the first above 255.
use faults::Refusal;
use monomials::Weights;
use std::test::Fail;

#[test]
fn admitted(rt: HostRuntime) {
    assert!(rt; Weights::new([255, 255, 255, 255]).is_ok());
    assert!(rt; Weights::new([0, 0, 0, 0]).is_ok());
}

#[test]
fn above(rt: HostRuntime) -> Result<(), Fail> {
    let refused = [
        ([256, 0, 0, 0], 0),
        ([0, 256, 0, 0], 1),
        ([0, 0, 256, 0], 2),
        ([0, 0, 0, 256], 3),
        ([255, 255, 65535, 256], 2),
        ([65535, 65535, 65535, 65535], 0),
    ];
    for (weights, place) in refused {
        match Weights::new(weights) {
            Ok(_) => return Err(Fail::new("a weight above 255 is admitted")),
            Err(fault) => {
                let refusal = Refusal::from(fault);
                assert_eq!(rt; refusal.ground, 5);
                assert_eq!(rt; refusal.place, place);
            }
        }
    }
    Ok(())
}
