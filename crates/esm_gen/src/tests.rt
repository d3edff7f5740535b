// Tests: the first lines of a generated stream's input.
use crate::generated_lines;
use std::test::Fail;

#[test]
fn first_lines(rt: HostRuntime) -> Result<(), Fail> {
    let input = generated_lines(rt.alloc(), 2)?;
    let lines =
        b"{\"shardId\":\"shardId-000000000000\",\"sequenceNumber\":\"1\",\"partitionKey\":\"k0\",\"data\":\"eyJuIjowfQ==\",\"approximateArrivalTimestamp\":0}\n{\"shardId\":\"shardId-000000000001\",\"sequenceNumber\":\"2\",\"partitionKey\":\"k1\",\"data\":\"eyJuIjoxfQ==\",\"approximateArrivalTimestamp\":1}\n";
    assert_eq!(rt; input.as_slice(), lines.as_slice());
    Ok(())
}
