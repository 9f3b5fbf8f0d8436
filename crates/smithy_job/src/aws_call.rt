// What a job says of a protocol of AWS.
use smithy_ids::ShapeId;

/// A protocol of AWS with bodies of JSON (Smithy, AWS restJson1 and AWS JSON protocols).
#[derive(Clone, Copy, Debug, PartialEq, Eq, Drop)]
pub enum AwsProtocol {
    /// AWS restJson1.
    RestJson1,
    /// AWS JSON 1.0.
    AwsJson10,
    /// AWS JSON 1.1.
    AwsJson11,
}

/// A call of AWS JSON.
#[derive(Clone, Copy)]
pub struct AwsJsonCall<'t> {
    pub service: ShapeId<'t>,
    pub operation: ShapeId<'t>,
    /// Whether the service's shape is in the job's model and has the trait `aws.protocols#awsQueryCompatible`.
    pub is_query_compatible: bool,
}

/// How a job's input is sent by a protocol of AWS.
#[derive(Clone, Copy)]
pub enum AwsCall<'t> {
    /// By AWS restJson1.
    RestJson1,
    /// By AWS JSON 1.0.
    AwsJson10(AwsJsonCall<'t>),
    /// By AWS JSON 1.1.
    AwsJson11(AwsJsonCall<'t>),
}

/// How a job's response is read by a protocol of AWS.
#[derive(Clone, Copy, Debug, PartialEq, Eq, Drop)]
pub struct AwsReading {
    pub protocol: AwsProtocol,
    /// Whether fractions of seconds are dropped, toward minus infinity; else they are refused.
    pub floors_times: bool,
}
