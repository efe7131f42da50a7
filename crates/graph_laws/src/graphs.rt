//! What the live blocks and the pairs of a world tell, whatever its blocks contain.

ghost use Rattle.graph_laws.specs.Graph.{BytesTellNoGraph, GraphIsRaw, GraphTells, GraphStays, BytesStayApart};

/// Worlds of one graph have the same blocks doomed, reached and lost, and the same steps, and have one graph then. So
/// what is said of the world that tables tell, in which all bytes are zeros, holds of each world with these tables.
pub fn graphs_tell()
    /// promise (with raw, tells, stays, apart): Worlds of one graph have the same doomed, reached and lost blocks,
    /// numbers and steps, whatever their bytes, version and records.
    ensures bytes { BytesTellNoGraph }
    ensures raw { GraphIsRaw }
    ensures tells { GraphTells }
    ensures stays { GraphStays }
    ensures apart { BytesStayApart }
{}
