// The rule of one pixel over any width, and the composites of the sixteen raster operations: definitions in specs/, their laws in proofs/.
#![tactic(auto)]
